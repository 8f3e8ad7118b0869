// A case: a line with a name and an input.
ghost use Rattle.std.specs.Prelude.{◌≡◌, ◌⊎◌, IfOk, IfErr, nat_eq, codes};
ghost use Rattle.std.specs.List.{starts_with};
ghost use Rattle.cases.specs.Cases.{case_of};
ghost use Rattle.cases.specs.declared.error.CaseError.TheVariants.{OutOfMemory};

use crate::CaseError;
use crate::hexadecimal::decode;
use std::alloc::Global;

/// A name, and an input of bytes.
#[derive(Drop)]
pub struct Case<'a> {
    pub name: &'a str,
    pub input: Vec<u8>,
}

impl<'a> Case<'a> {
    /// The case of a line: a name, a space, and the input in hexadecimal.
    pub fn read(heap: Global, line: &'a str) -> Result<Case<'a>, CaseError>
        ensures ok { IfOk result (λ case. case_of line.now ≡ Ok (case.name.now, case.input.items)) }
        ensures err { IfErr result (λ e. (e ≡ OutOfMemory) ⊎ (case_of line.now ≡ Err e)) }
    {
        let (name, parts) = line.split_once(' ').ok_or(CaseError::NoName)?;
        let input = decode(heap, parts)?;
        Ok(Case { name, input })
    }

    /// Whether the plan is to be told too: the name begins with a plus.
    pub(crate) fn asks_for_plan(&self) -> bool
        ensures { result ≡ starts_with nat_eq self.now.name.now (codes "+") }
    {
        self.name.starts_with('+')
    }
}
