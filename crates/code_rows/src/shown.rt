//! What a row is compared with.

use code_form::{Code, Func, PortSign};
use std::alloc::AllocError;

/// Where the first global stands.
const FIRST_ADDRESS: usize = 1024;

fn show_name(shown: &mut String, name: &[u8]) -> Result<(), AllocError> {
    shown.push_str(str::from_utf8(name).unwrap_or("(no text)"))
}

fn show_func(shown: &mut String, func: &Func) -> Result<(), AllocError> {
    show_name(shown, func.name.as_slice())?;
    let (params, result, registers) = (func.params.as_slice(), func.result, func.registers);
    writeln!(shown, " {params:?} {result:?} {registers}")?;
    let (types, blocks) = (func.types.as_slice(), func.blocks.as_slice());
    writeln!(shown, "{types:?}\n{blocks:?}")
}

fn show_instrs(shown: &mut String, code: &Code) -> Result<(), AllocError> {
    for (at, instr) in code.instrs.as_slice().iter().enumerate() {
        let result = code.results.get(at).copied().flatten();
        writeln!(shown, "{at} {instr:?} {result:?}")?;
    }
    Ok(())
}

fn show_memory(shown: &mut String, code: &Code) -> Result<(), AllocError> {
    let memory = code.memory.as_slice();
    let is_clear = memory.iter().take(FIRST_ADDRESS).all(|byte| *byte == 0);
    let bytes = memory.get(FIRST_ADDRESS..).unwrap_or(&[]);
    let (const_end, stack_base) = (code.const_end, code.stack_base);
    writeln!(shown, "{is_clear} {bytes:?} {const_end} {stack_base}")
}

fn show_sign(shown: &mut String, sign: &PortSign) -> Result<(), AllocError> {
    show_name(shown, sign.name.as_slice())?;
    let (params, result) = (sign.params.as_slice(), sign.result);
    writeln!(shown, " {params:?} {result:?}")
}

/// Appends a code: its functions, its instructions, its memory and its ports.
pub fn show_code(shown: &mut String, code: &Code) -> Result<(), AllocError> {
    for func in code.funcs.as_slice() {
        show_func(shown, func)?;
    }
    show_instrs(shown, code)?;
    show_memory(shown, code)?;
    for sign in code.signs.as_slice() {
        show_sign(shown, sign)?;
    }
    Ok(())
}
