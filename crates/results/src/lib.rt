// What crosses the C boundary: each answer as plain numbers in a struct that C can hold.
#![tactic(auto)]

mod crossing;

// Accepted where refusal is 0; else the refusal's number and what it carries.
#[repr(C)]
#[derive(Clone, Copy, Debug, PartialEq, Eq)]
pub struct Verdict {
    pub refusal: u32,
    pub carried: usize,
}

// Yes or no; where refusal is not 0, its number, what it carries, and no.
#[repr(C)]
#[derive(Clone, Copy, Debug, PartialEq, Eq)]
pub struct YesNo {
    pub refusal: u32,
    pub carried: usize,
    pub yes: bool,
}

// How many; where refusal is not 0, its number, what it carries, and 0.
#[repr(C)]
#[derive(Clone, Copy, Debug, PartialEq, Eq)]
pub struct Count {
    pub refusal: u32,
    pub carried: usize,
    pub count: usize,
}

// Whether a number is in a table, and how many offsets of its run were read; where refusal is not 0, no and 0.
#[repr(C)]
#[derive(Clone, Copy, Debug, PartialEq, Eq)]
pub struct Sought {
    pub refusal: u32,
    pub carried: usize,
    pub read: usize,
    pub yes: bool,
}

// The lengths of a packed table; where refusal is not 0, zeros.
#[repr(C)]
#[derive(Clone, Copy, Debug, PartialEq, Eq)]
pub struct Sizes {
    pub refusal: u32,
    pub carried: usize,
    pub headers: usize,
    pub offsets: usize,
}

// One to three mapped numbers, those past count 0; where refusal is not 0, zeros.
#[repr(C)]
#[derive(Clone, Copy, Debug, PartialEq, Eq)]
pub struct Mapped {
    pub refusal: u32,
    pub count: usize,
    pub to: [u32; 3],
}
