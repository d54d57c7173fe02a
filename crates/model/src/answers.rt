// What the calls of a volume answer, as types whose cases the plans name.

// Of a withdraw: a grant, or none for now, or none at all.
pub enum Withdrawn<G> {
    Granted(G),
    Wait,
    Full,
}

// Of a balance: the section that it posted, or why it posted none.
#[derive(Clone, Copy, PartialEq, Eq, Debug)]
pub enum Balanced {
    Section(u8),
    Busy,
    Quiet,
}

// Of a drain: the section that it posted, or that the stock is empty.
#[derive(Clone, Copy, PartialEq, Eq, Debug)]
pub enum Drained {
    Section(u8),
    Dry,
}

// Of a salvage: what it posted.
#[derive(Clone, Copy, PartialEq, Eq, Debug)]
pub enum Salvaged {
    Begun,
    Entry(u16),
    Section(u8),
    Ended,
}
