//! An optional number in four bytes.

ghost use Rattle.std.specs.Prelude.{◌≡◌, ◌<◌, ◌^◌, ◌-◌, Option, Some, None, IfSome};

use std::marker::Model;

/// A number below 2^32 - 1, or none, in four bytes.
#[derive(Clone, Copy, Debug)]
pub(crate) struct OptionalNumber {
    code: u32,
}

/// The code that stands for none.
const NONE_CODE: u32 = u32::MAX;

impl Model for OptionalNumber {
    ghost use Rattle.std.specs.Prelude.{Option, ℕ};
    ghost use Rattle.std.proofs.Common.{ap};
    ghost use Rattle.zt_index.specs.ProofsOnly.OptionalNumbers.{code_of, code-read, read_code};

    ghost Value = { Option ℕ };

    ghost view = { λ o. read_code o.code };

    ghost inverse = { λ o. record { code = code_of o } };

    ghost inverse_ok = { λ o h. ap (λ n. record { code = n }) (code-read o.code) };
}

impl OptionalNumber {
    /// No number.
    #[inline(always)]
    pub fn none() -> OptionalNumber
        ensures { result ≡ None }
    {
        OptionalNumber { code: NONE_CODE }
    }

    /// The number.
    #[inline(always)]
    pub fn some(number: u64) -> OptionalNumber
        requires { number < 2 ^ 32 - 1 }
        ensures { result ≡ Some number }
    {
        OptionalNumber {
            code: number as u32,
        }
    }

    /// The number, if there is one.
    #[inline(always)]
    pub fn of(number: Option<u64>) -> OptionalNumber
        requires { IfSome number (λ n. n < 2 ^ 32 - 1) }
        ensures { result ≡ number }
    {
        match number {
            Some(number) => OptionalNumber::some(number),
            None => OptionalNumber::none(),
        }
    }

    /// The number, if there is one.
    #[inline(always)]
    pub fn get(self) -> Option<u64>
        ensures { result ≡ self }
    {
        if self.code == NONE_CODE {
            None
        } else {
            Some(self.code as u64)
        }
    }
}
