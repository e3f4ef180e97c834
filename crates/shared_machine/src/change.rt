//! Makes a change but for its bytes, in the room that there is.
ghost use Rattle.std.specs.Prelude.{◌≡◌};
ghost use Rattle.machine_form.specs.After.{after_change};
ghost use Rattle.lane_eval.specs.Plain.{CanApply};
ghost use Rattle.bare_state.specs.Room.{bare, HasRoom};

use bare_state::Bare;
use change_set::{Change, Control};
use flat_state::{first_place, function, result_register};
use lane_eval::{Program, entry_place};

/// Makes a change but for its bytes, in a state that has the room for it. It takes no memory. It
/// costs the change, and where a function is entered the function's registers.
pub fn apply_bare(program: &Program, s: &mut Bare, c: &Change)
    requires can { CanApply program.now s.old.state c.now c.now.control }
    requires room { HasRoom program.now s.old.room c.now }
    ensures { s.new.state ≡ bare (after_change program.now s.old.state c.now) }
{
    let code = program.code();
    match c.control {
        Control::Next => s.go_on(code, c),
        Control::Jump(b) => {
            let place = entry_place(program, s.place(), b);
            s.go_to(code, c, b, place);
        }
        Control::Enter(f) => {
            let function = function(code, f);
            let back = result_register(code, s.place());
            s.enter(code, c, f, first_place(function), function.registers, back);
        }
        Control::Leave => s.leave(code, c),
        Control::End(ending) => s.end(code, c, ending),
    }
}
