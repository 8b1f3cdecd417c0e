// The mapping answer, the ASCII letters, and the row reader that the three mappings share.
#![tactic(auto)]

ghost use Rattle.std.specs.Prelude.{◌≡◌};
ghost use Rattle.casing.specs.Answers.{used, made};

pub mod ascii;
pub mod kernel;

// The three mapped numbers, unused ones 0, with their count.
#[derive(Clone, Copy, Debug, PartialEq, Eq, Hash)]
pub struct Mapping {
    pub to: [u32; 3],
    pub count: usize,
}

// How many of three numbers count: zeros are trimmed from the end, and never the first number.
fn used_of(second: u32, third: u32) -> usize
    ensures { result ≡ used second third }
{
    if third != 0 {
        return 3;
    }
    if second != 0 {
        return 2;
    }
    1
}

impl Mapping {
    // The three numbers as an answer.
    #[tactic(auto, unfolding(crate::specs::Answers::made))]
    pub fn new(first: u32, second: u32, third: u32) -> Self
        ensures { result ≡ made first second third }
    {
        Mapping {
            to: [first, second, third],
            count: used_of(second, third),
        }
    }
}
