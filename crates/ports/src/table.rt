//! A port that answers by a table.
ghost use Rattle.std.specs.Prelude.{◌≡◌, map};
ghost use Rattle.ports.specs.Rows.{answer_of};

use crate::port::Port;
use code_form::PortSign;
use std::marker::Model;

/// A port whose answers are listed. Contracts see its sign, its rows and how often it was asked.
#[derive(Drop)]
pub struct TablePort {
    sign: PortSign,
    rows: Vec<(Vec<u64>, u64)>,
    asked: u64,
}

impl Model for TablePort {
    ghost use Rattle.std.specs.Prelude.{map};
    ghost use Rattle.ports.specs.Rows.{TableValue};

    ghost Value = { TableValue };

    ghost view = { λ p. record { sign = p.sign; rows = map (λ r. (r.0.items, r.1)) p.rows.items; asked = p.asked } };
}

impl TablePort {
    /// A port with this sign that was never asked. It answers the first row with the arguments that it gets, and nothing where there is none.
    pub fn new(sign: PortSign, rows: Vec<(Vec<u64>, u64)>) -> TablePort
        ensures { result ≡ record { sign = sign; rows = map (λ r. (r.0.items, r.1)) rows.items; asked = 0 } }
    {
        TablePort {
            sign,
            rows,
            asked: 0,
        }
    }

    /// How often it was asked.
    pub fn asked(&self) -> u64
        ensures { result ≡ self.now.asked }
    {
        self.asked
    }
}

/// The answer of the first row with these arguments. It costs all rows before that one.
fn answer(rows: &[(Vec<u64>, u64)], args: &[u64]) -> Option<u64>
    ensures { result ≡ answer_of (map (λ r. (r.0.items, r.1)) rows.now) args.now }
{
    for row in rows {
        if row.0.as_slice() == args {
            return Some(row.1);
        }
    }
    None
}

impl Port for TablePort {
    ghost use Rattle.ports.specs.Rows.{answer_of};

    ghost sign = { λ p. p.sign };

    ghost answers = { λ p args. answer_of p.rows args };

    ghost asked = { λ p. p.asked };

    fn sign(&self) -> &PortSign {
        &self.sign
    }

    fn ask(&mut self, args: &[u64]) -> Option<u64> {
        self.asked += 1;
        answer(self.rows.as_slice(), args)
    }
}
