//! What judges the items of a module by its types.
ghost use Rattle.std.specs.Prelude.{◌≡◌, [], ◌∷◌, ◌++◌, false, List, IfOk, OnOk};
ghost use Rattle.ir_tree.specs.declared.item.Item.{Item};
ghost use Rattle.ir_rules.specs.Settings.{Setting};
ghost use Rattle.ir_rules.specs.Types.{type_defs};
ghost use Rattle.ir_scopes.specs.Kinds.{kind_in};
ghost use Rattle.ir_room.specs.Rooms.{IsRoomOf};
ghost use Rattle.ir_checker.specs.Judged.{AreOf, has_large};
ghost use Rattle.ir_checker.specs.Passes.{IsJudgedBy};
ghost use Rattle.ir_typed_rules.specs.Walks.{IsTold, WalksAre};

use am_base::OutOfMemory;
use ir_checker::{Known, TypeBreaks, TypeRules};
use ir_init_rules::init_differs;
use ir_names::NameTable;
use ir_operand_rules::Tables;
use ir_room::Room;
use ir_rules::Local;
use ir_tree::Item;
use ir_type_rules::{
    get_path, init_literal_range, init_type_differs, init_unknown_name, recursive_type,
    scalar_wanted, type_too_large, unknown_type,
};
use ir_types::Types;
use std::alloc::Global;

/// What the rules say of an item that follow the paths and initialisers in it.
#[derive(Clone, Copy)]
pub struct Walked {
    pub get_path: bool,
    pub init_differs: bool,
    /// Of an item that is no instruction.
    pub unknown_name: bool,
    /// Of an item that is no instruction.
    pub type_differs: bool,
    /// Of an item that is no instruction.
    pub literal_range: bool,
}

/// Returns what the rules say of an item that follow the paths and initialisers in it. It takes time
/// about linear in the item.
fn walked_of(
    alloc: Global,
    known: &Known<'_>,
    locals: &NameTable<Local>,
    types: &mut Types<'_>,
    item: &Item,
) -> Result<Walked, OutOfMemory>
    ensures defs { types.new.defs ≡ types.old.defs }
    ensures walks { IfOk result (λ walked. (s : Setting)
        → IsJudgedBy s types.old.defs (kind_in known.now.kinds.now.names) known.now.entities.now locals.now
        → WalksAre s item.now walked) }
{
    let tables = Tables {
        kinds: known.kinds,
        entities: known.entities,
        locals,
    };
    let path = get_path(alloc, types, item)?;
    let init = init_differs(alloc, types, item)?;
    let name = init_unknown_name(alloc, &tables, item)?;
    let differs = init_type_differs(alloc, known.kinds, item)?;
    let range = init_literal_range(alloc, &tables, item)?;
    Ok(Walked {
        get_path: path,
        init_differs: init,
        unknown_name: name,
        type_differs: differs,
        literal_range: range,
    })
}

/// The types of a module, and how much of the memory the globals so far need.
#[derive(Drop)]
pub struct TypedRules<'a> {
    pub types: Types<'a>,
    pub room: Room,
}

impl<'a> TypedRules<'a> {
    /// Returns the rules of a module. No item is judged.
    pub fn of(alloc: Global, items: &'a [Item]) -> Result<TypedRules<'a>, OutOfMemory>
        ensures defs { IfOk result (λ rules. rules.types.defs ≡ type_defs items.now) }
        ensures judged { IfOk result (λ rules. IsRoomOf rules.types.defs [] rules.room) }
    {
        let types = Types::of(alloc, items)?;
        Ok(TypedRules {
            types,
            room: Room::new(),
        })
    }

    /// Judges the next item, of which `walked` says what the rules say that follow its paths and
    /// initialisers.
    pub fn judge(
        &mut self,
        alloc: Global,
        known: &Known<'_>,
        walked: &Walked,
        item: &Item,
    ) -> Result<TypeBreaks, OutOfMemory>
        ensures defs { self.new.types.defs ≡ self.old.types.defs }
        ensures judged { OnOk result ((above : List Item) → has_large self.old.types.defs item.now ≡ false
            → IsRoomOf self.old.types.defs above self.old.room
            → IsRoomOf self.new.types.defs (above ++ item.now ∷ []) self.new.room) }
        ensures broken { IfOk result (λ typed. (s : Setting) → IsRoomOf self.old.types.defs s.above self.old.room
            → IsTold s self.old.types.defs (kind_in known.now.kinds.now.names)
            → WalksAre s item.now walked.now
            → AreOf s item.now typed) }
    {
        self.room.add(alloc, &mut self.types, item)?;
        let unknown = unknown_type(alloc, &self.types, item)?;
        let large = type_too_large(alloc, &mut self.types, item)?;
        let scalars = scalar_wanted(alloc, known.kinds, item)?;
        let recursive = recursive_type(&self.types, item);
        let full = self.room.is_full();
        Ok(TypeBreaks {
            unknown_type: unknown,
            recursive_type: recursive,
            type_too_large: large,
            scalar_wanted: scalars,
            get_path: walked.get_path,
            init_differs: walked.init_differs,
            unknown_name: walked.unknown_name,
            type_differs: walked.type_differs,
            literal_range: walked.literal_range,
            full,
        })
    }
}

impl<'a> TypeRules for TypedRules<'a> {
    ghost use Rattle.ir_room.specs.Rooms.{IsRoomOf};

    ghost defs = { λ r. r.types.defs };

    ghost has_judged = { λ r above. IsRoomOf r.types.defs above r.room };

    fn breaks(
        &mut self,
        alloc: Global,
        known: &Known<'_>,
        locals: &NameTable<Local>,
        item: &Item,
    ) -> Result<TypeBreaks, OutOfMemory> {
        let walked = walked_of(alloc, known, locals, &mut self.types, item)?;
        self.judge(alloc, known, &walked, item)
    }
}
