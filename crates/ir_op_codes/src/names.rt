//! The numbers that the names in an instruction stand for.
ghost use Rattle.std.specs.Prelude.{◌≡◌, ◌<◌, ◌^◌, IfOk};
ghost use Rattle.std.specs.Option.{option_copied};
ghost use Rattle.ir_names.specs.Names.{defined};
ghost use Rattle.ir_tree.specs.declared.name.Name.{Name};
ghost use Rattle.ir_rules.specs.Codes as codes;
ghost use Rattle.ir_rules.specs.Blocks.{block_number as block_of};
ghost use Rattle.ir_rules.specs.Memory.{address_in};
ghost use Rattle.ir_op_codes.specs.Alone.{function_number, callee_in};

use am_base::OutOfMemory;
use code_form::Callee;
use ir_call_rules::Ports;
use ir_names::NameTable;
use ir_rules::{Entity, Local};
use ir_tree::Name;
use std::alloc::Global;

/// What the names in the instructions of a function stand for. Registers, blocks and functions are
/// so few that a code can number them.
pub struct Names<'a> {
    /// The names of the function.
    pub locals: &'a NameTable<Local>,
    /// The global names of the module.
    pub entities: &'a NameTable<Entity>,
    /// The ports that are handed in.
    pub ports: &'a Ports<'a>,
    /// The addresses of the globals.
    pub addresses: &'a NameTable<u64>,
    ghost registers: { (n : Name) → codes.register_of (defined locals.now n) < 2 ^ 32 },
    ghost blocks: { (n : Name) → block_of (defined locals.now n) < 2 ^ 32 },
    ghost functions: { (n : Name) → function_number (defined entities.now n) < 2 ^ 32 },
}

fn register_number(local: Option<&Local>) -> usize
    ensures { result ≡ codes.register_of (option_copied local.entry) }
{
    match local {
        Some(Local::Value(_, register)) => *register,
        _ => 0,
    }
}

impl<'a> Names<'a> {
    /// Returns the register of a local; 0 for a name that is none.
    pub fn register(&self, name: &Name) -> u32
        ensures { result ≡ codes.register_of (defined self.now.locals.now name.now) }
    {
        register_number(self.locals.get(name)) as u32
    }

    /// Returns the number of a block; 0 for a name that is none.
    pub fn block(&self, name: &Name) -> u32
        ensures { result ≡ block_of (defined self.now.locals.now name.now) }
    {
        let block = match self.locals.get(name) {
            Some(Local::Block(block)) => *block,
            _ => 0,
        };
        block as u32
    }

    /// Returns the address of a global; 0 for a name that is none.
    pub fn address(&self, name: &Name) -> u64
        ensures { result ≡ address_in self.now.addresses.now name.now }
    {
        match self.addresses.get(name) {
            Some(address) => *address,
            None => 0,
        }
    }

    /// Returns what a call of a name goes to: a function of the module, or an outside function or
    /// port; `Abort` for a name that is none.
    pub fn callee(&self, alloc: Global, name: &Name) -> Result<Callee, OutOfMemory>
        ensures { IfOk result (λ callee. callee ≡ callee_in self.now.ports.now self.now.entities.now name.now) }
    {
        if let Some(Entity::Defined(function, _)) = self.entities.get(name) {
            return Ok(Callee::Func(*function as u32));
        }
        match self.ports.callee_of(alloc, name)? {
            Some(callee) => Ok(callee),
            None => Ok(Callee::Abort),
        }
    }
}
