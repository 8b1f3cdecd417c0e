// The answers of the entries, as they cross: the refusal's number, 0 for none, what it carries, and the values, which a refusal
// leaves 0.
ghost use Rattle.results.specs.Results.{IsVerdict, IsYesNo, IsCount, IsSought, IsSizes, IsMapped};

use crate::{Count, Mapped, Sizes, Sought, Verdict, YesNo};
use casing::Mapping;
use pack::Packed;
use scalar::Refusal;
use skip::Hit;

impl<T: Copy> From<Result<T, Refusal>> for Verdict {
    ghost from_gives = { IsVerdict };

    fn from(answer: Result<T, Refusal>) -> Verdict {
        match answer {
            Ok(_) => Verdict {
                refusal: 0,
                carried: 0,
            },
            Err(r) => Verdict {
                refusal: r.number(),
                carried: r.carried(),
            },
        }
    }
}

impl From<Result<bool, Refusal>> for YesNo {
    ghost from_gives = { IsYesNo };

    fn from(answer: Result<bool, Refusal>) -> YesNo {
        let Verdict { refusal, carried } = answer.into();
        YesNo {
            refusal,
            carried,
            yes: answer.unwrap_or(false),
        }
    }
}

impl From<Result<usize, Refusal>> for Count {
    ghost from_gives = { IsCount };

    fn from(answer: Result<usize, Refusal>) -> Count {
        let Verdict { refusal, carried } = answer.into();
        Count {
            refusal,
            carried,
            count: answer.unwrap_or(0),
        }
    }
}

impl From<Result<Hit, Refusal>> for Sought {
    ghost from_gives = { IsSought };

    fn from(answer: Result<Hit, Refusal>) -> Sought {
        let Verdict { refusal, carried } = answer.into();
        let Hit { yes, read } = answer.unwrap_or(Hit {
            yes: false,
            read: 0,
        });
        Sought {
            refusal,
            carried,
            read,
            yes,
        }
    }
}

impl From<Result<Packed, Refusal>> for Sizes {
    ghost from_gives = { IsSizes };

    fn from(answer: Result<Packed, Refusal>) -> Sizes {
        let Verdict { refusal, carried } = answer.into();
        let Packed { headers, offsets } = answer.unwrap_or(Packed {
            headers: 0,
            offsets: 0,
        });
        Sizes {
            refusal,
            carried,
            headers,
            offsets,
        }
    }
}

impl From<Result<Mapping, Refusal>> for Mapped {
    ghost from_gives = { IsMapped };

    fn from(answer: Result<Mapping, Refusal>) -> Mapped {
        match answer {
            // One by one: read as a whole, they would wait for the three single writes just made.
            Ok(m) => Mapped {
                refusal: 0,
                count: m.count,
                to: [m.to[0], m.to[1], m.to[2]],
            },
            Err(refusal) => Mapped {
                refusal: refusal.number(),
                count: 0,
                to: [0, 0, 0],
            },
        }
    }
}
