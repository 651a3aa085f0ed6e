// What a line asks for, and what is answered.
#[derive(Clone, Copy)]
pub enum Call {
    Note { bytes: u32, count: u32 },
}

#[derive(Clone, Copy)]
pub enum Answer {
    // the number of records held
    Noted(u32),
}
