//! The ports that are handed in, by their names.
ghost use Rattle.std.specs.Prelude.{◌≡◌, ◌≤◌, ◌^◌, Some, IfOk, length, map, option_map};
ghost use Rattle.ir_names.specs.Names.{defined, firsts};
ghost use Rattle.ir_rules.specs.Calls as spec;
ghost use Rattle.ir_rules.specs.Entities as entities;
ghost use Rattle.ir_call_rules.specs.Ports.{numbered};
ghost use Rattle.code_form.specs.declared.code.TyScalar.TheVariants.{Int};
ghost use Rattle.ir_tree.specs.declared.name.Name.TheVariants.{Text};

use am_base::{OutOfMemory, Width};
use am_lists::{Bytes, Items};
use code_form::{Callee, PortSign, TyScalar};
use ir_names::NameTable;
use ir_rules::Signature;
use ir_tree::Name;
use itoa::Buffer;
use std::alloc::Global;
use std::marker::Model;

/// The ports that are handed in. One is found by its name in O(1) expected time.
#[derive(Drop)]
pub struct Ports<'a> {
    signs: &'a [PortSign],
    numbers: NameTable<u32>,
}

impl<'a> Model for Ports<'a> {
    ghost use Rattle.std.specs.Prelude.{List, ◌≡◌};
    ghost use Rattle.code_form.specs.declared.sign.PortSign.{PortSign};
    ghost use Rattle.ir_names.specs.Names.{firsts};
    ghost use Rattle.ir_call_rules.specs.Ports.{numbered};

    ghost Value = { List PortSign };

    ghost view = { λ p. p.signs.now };

    ghost invariant = { λ p. p.numbers ≡ firsts (numbered 0 p.signs.now) };
}

/// Returns the bytes of a name; those of a number are its decimal digits.
pub fn name_bytes(alloc: Global, name: &Name) -> Result<Bytes, OutOfMemory>
    ensures { IfOk result (λ bytes. bytes ≡ entities.name_bytes name.now) }
{
    match name {
        Name::Text(bytes) => Ok(bytes.copy(alloc)?),
        Name::Number(n) => {
            let mut buffer = Buffer::new();
            Ok(Items::from_slice(alloc, buffer.format(*n).as_bytes())?)
        }
    }
}

fn outside(name: &[u8]) -> Option<Callee>
    ensures { result ≡ spec.outside name.now }
{
    if name == b"putchar".as_slice() {
        Some(Callee::PutChar)
    } else if name == b"getchar".as_slice() {
        Some(Callee::GetChar)
    } else if name == b"exit".as_slice() {
        Some(Callee::Exit)
    } else if name == b"abort".as_slice() {
        Some(Callee::Abort)
    } else {
        None
    }
}

fn widths_kinds(alloc: Global, widths: &[Width]) -> Result<Items<Option<TyScalar>>, OutOfMemory>
    ensures { IfOk result (λ list. list ≡ map (λ w. Some (Int w)) widths.now) }
{
    let mut list = Items::new(alloc);
    'each: for w in widths {
        list.push(Some(TyScalar::Int(*w)))?;
    }
    Ok(list)
}

fn width_result(width: Option<Width>) -> Option<Option<TyScalar>>
    ensures { result ≡ option_map (λ w. Some (Int w)) width }
{
    match width {
        None => None,
        Some(w) => Some(Some(TyScalar::Int(w))),
    }
}

fn sign_signature(alloc: Global, sign: &PortSign) -> Result<Signature, OutOfMemory>
    ensures { IfOk result (λ signature. signature ≡ spec.sign_signature sign.now) }
{
    Ok(Signature {
        params: widths_kinds(alloc, sign.params.as_slice())?,
        result: width_result(sign.result),
    })
}

/// The names of ports with their numbers.
fn numbers_of(alloc: Global, signs: &[PortSign]) -> Result<NameTable<u32>, OutOfMemory>
    requires { length signs.now ≤ 2 ^ 32 }
    ensures { IfOk result (λ numbers. numbers ≡ firsts (numbered 0 signs.now)) }
{
    let mut numbers = NameTable::new(alloc);
    'each: for (number, sign) in signs.iter().enumerate() {
        let name = Name::Text(sign.name.copy(alloc)?);
        numbers.add(alloc, &name, number as u32)?;
    }
    Ok(numbers)
}

fn i32_kind() -> Option<TyScalar>
    ensures { result ≡ spec.i32 }
{
    Some(TyScalar::Int(Width::W32))
}

/// The signature of an outside function by the types of its parameters and of its result.
fn outside_signature(
    alloc: Global,
    params: &[Option<TyScalar>],
    value: Option<Option<TyScalar>>,
) -> Result<Option<Signature>, OutOfMemory>
    ensures { IfOk result (λ signature.
        signature ≡ Some (record { params = params.now; result = value })) }
{
    Ok(Some(Signature {
        params: Items::from_slice(alloc, params)?,
        result: value,
    }))
}

impl<'a> Ports<'a> {
    /// Returns the ports with these signatures. It takes time about linear in their names.
    pub fn new(alloc: Global, signs: &'a [PortSign]) -> Result<Ports<'a>, OutOfMemory>
        requires { length signs.now ≤ 2 ^ 32 }
        ensures { IfOk result (λ ports. ports ≡ signs.now) }
    {
        let numbers = numbers_of(alloc, signs)?;
        Ok(Ports { signs, numbers })
    }

    /// Returns the number of the first port with a name. `None` iff no port has it.
    fn number_of(&self, name: &Name) -> Option<u32>
        ensures { result ≡ defined (numbered 0 self.now) name.now }
    {
        self.numbers.get(name).copied()
    }

    /// The first port with a name.
    fn port_of(&self, name: Bytes) -> Option<Callee>
        ensures { result ≡ spec.port_from 0 self.now name }
    {
        match self.number_of(&Name::Text(name)) {
            None => None,
            Some(number) => Some(Callee::Port(number)),
        }
    }

    /// Returns the outside function or port with a name, the outside function where both have it.
    /// `None` iff neither has it.
    pub fn callee_of(&self, alloc: Global, name: &Name) -> Result<Option<Callee>, OutOfMemory>
        ensures { IfOk result (λ callee.
            callee ≡ spec.known_callee self.now (entities.name_bytes name.now)) }
    {
        let bytes = name_bytes(alloc, name)?;
        let known = outside(bytes.as_slice());
        let port = self.port_of(bytes);
        match known {
            Some(callee) => Ok(Some(callee)),
            None => Ok(port),
        }
    }

    /// Returns the signature of an outside function or port. `None` iff there is none.
    pub fn signature_of(
        &self,
        alloc: Global,
        callee: Option<Callee>,
    ) -> Result<Option<Signature>, OutOfMemory>
        ensures { IfOk result (λ signature. signature ≡ spec.callee_signature self.now callee) }
    {
        match callee {
            Some(Callee::PutChar) => outside_signature(alloc, &[i32_kind()], Some(i32_kind())),
            Some(Callee::GetChar) => outside_signature(alloc, &[], Some(i32_kind())),
            Some(Callee::Exit) => outside_signature(alloc, &[i32_kind()], None),
            Some(Callee::Abort) => outside_signature(alloc, &[], None),
            Some(Callee::Port(number)) => match self.signs.get(number as usize) {
                None => Ok(None),
                Some(sign) => Ok(Some(sign_signature(alloc, sign)?)),
            },
            Some(Callee::Func(_)) | None => Ok(None),
        }
    }
}
