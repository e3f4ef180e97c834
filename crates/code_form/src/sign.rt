//! The signatures of ports.

ghost use Rattle.std.specs.Prelude.{◌≡◌, IfOk};

use am_base::{OutOfMemory, Width};
use am_lists::{Bytes, Items};
use std::alloc::Global;

/// The signature of a port: a pure outside function that whoever runs the code hands in.
#[derive(Debug, Drop, PartialEq, Eq)]
pub struct PortSign {
    /// The bytes of the name, without `@`.
    pub name: Bytes,
    /// The widths of the arguments, in order.
    pub params: Items<Width>,
    /// The width of the answer, or nothing for `void`.
    pub result: Option<Width>,
}

impl PortSign {
    /// Returns an equal sign.
    pub fn copy(&self, alloc: Global) -> Result<PortSign, OutOfMemory>
        ensures { IfOk result (λ sign. sign ≡ self.now) }
    {
        Ok(PortSign {
            name: self.name.copy(alloc)?,
            params: self.params.copy(alloc)?,
            result: self.result,
        })
    }
}

#[cfg(test)]
mod tests {
    use super::*;
    use std::test::Fail;

    #[test]
    fn copies_a_sign(rt: HostRuntime) -> Result<(), Fail> {
        let alloc = rt.alloc();
        let sign = PortSign {
            name: Items::from_slice(alloc, b"sum")?,
            params: Items::from_slice(alloc, &[Width::W8, Width::W64])?,
            result: Some(Width::W32),
        };
        let copy = sign.copy(alloc)?;
        assert_eq!(rt; copy.name.as_slice(), b"sum".as_slice());
        assert_eq!(rt; copy.params.as_slice(), [Width::W8, Width::W64].as_slice());
        assert_eq!(rt; copy.result, Some(Width::W32));
        Ok(())
    }
}
