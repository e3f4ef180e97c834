//! The front of a page, and its style.

ghost use Rattle.std.specs.Prelude.{◌≡◌, ◌++◌, OnOk};
ghost use Rattle.html_page.specs.Head as spec;

use am_base::OutOfMemory;
use am_lists::Bytes;

/// The front of a page up to its style.
#[tactic(auto, unfolding(crate::specs::Head::front))]
fn front() -> &'static [u8]
    ensures { result.now ≡ spec.front }
{
    b"<!DOCTYPE html>\n\
    <html lang=en>\n\
    <head>\n\
    <meta charset=utf-8>\n\
    <meta name=viewport content='width=device-width, initial-scale=1'>\n\
    <title>Mutants and tests</title>\n\
    <style>\n"
}

/// The colours, light and dark. Those of the letters are apart for eyes that don't tell red from
/// green (Okabe and Ito, "Color Universal Design"), and each letter is there to be read.
#[tactic(auto, unfolding(crate::specs::Head::colours))]
fn colours() -> &'static [u8]
    ensures { result.now ≡ spec.colours }
{
    b":root{color-scheme:light dark;--b:#fff;--f:#1b1b1b;--l:#c8c8c8;--q:#f2f2f2;--s:#b3261e}\n\
    @media(prefers-color-scheme:dark){\n\
    :root{--b:#131313;--f:#e6e6e6;--l:#484848;--q:#202020;--s:#ff9d94}}\n\
    .R{background:#0072b2;color:#fff}.O{background:#e69f00;color:#000}\n\
    .T{background:#d55e00;color:#000}.B{background:#cc79a7;color:#000}\n"
}

/// The lay-out of texts.
#[tactic(auto, unfolding(crate::specs::Head::text_layout))]
fn text_layout() -> &'static [u8]
    ensures { result.now ≡ spec.text_layout }
{
    b"body{margin:0 auto;max-width:76rem;padding:1rem;background:var(--b);color:var(--f);\n\
    font:1rem/1.5 system-ui,sans-serif}\n\
    h1{font-size:1.7rem;margin:.5rem 0}h2{font-size:1.3rem;margin:2rem 0 .5rem}\n\
    h3{font-size:1.05rem;margin:1.2rem 0 .4rem}p{margin:.4rem 0}.big{font-size:1.3rem}\n\
    a{color:inherit}nav a{margin-right:1rem}.w{max-width:40rem}td p{margin:0}\n\
    code{font-family:ui-monospace,monospace;font-size:.9em;overflow-wrap:anywhere}\n"
}

/// The lay-out of tables; survivors are told by a bar and a word.
#[tactic(auto, unfolding(crate::specs::Head::table_layout))]
fn table_layout() -> &'static [u8]
    ensures { result.now ≡ spec.table_layout }
{
    b".t{overflow-x:auto}table{border-collapse:collapse;font-variant-numeric:tabular-nums}\n\
    table:empty{display:none}th{background:var(--q)}\n\
    th,td{border:1px solid var(--l);padding:.2rem .55rem;text-align:left;vertical-align:top}\n\
    .m td{text-align:center;min-width:1.4rem;font-weight:700}b.R,b.O,b.T,b.B{padding:0 .4rem}\n\
    .s>th,p.s{border-left:.4rem solid var(--s);padding-left:.4rem}p.s{font-weight:700}\n\
    .s>th::after{content:' survives';color:var(--s)}.o>th::after{content:' original'}\n"
}

/// What differs where the page is printed.
#[tactic(auto, unfolding(crate::specs::Head::printed_layout))]
fn printed_layout() -> &'static [u8]
    ensures { result.now ≡ spec.printed_layout }
{
    b"@media print{body{max-width:none;padding:0;font-size:9pt}.t{overflow:visible}nav{display:none}\n\
    tr{break-inside:avoid}h2,h3{break-after:avoid}.R,.O,.T,.B{print-color-adjust:exact}}\n"
}

/// The end of the style, the title, and links to the parts of the page.
#[tactic(auto, unfolding(crate::specs::Head::links))]
fn links() -> &'static [u8]
    ensures { result.now ≡ spec.links }
{
    b"</style>\n\
    </head>\n\
    <body>\n\
    <h1>Mutants and tests</h1>\n\
    <nav><a href=#survivors>Survivors</a><a href=#tests>Tests</a>\n\
    <a href=#matrix>Matrix</a><a href=#instructions>Instructions</a></nav>\n"
}

/// Appends the front of a page.
pub(crate) fn put_head(out: &mut Bytes) -> Result<(), OutOfMemory>
    ensures { OnOk result (out.new ≡ out.old ++ spec.head) }
{
    out.extend(front())?;
    out.extend(colours())?;
    out.extend(text_layout())?;
    out.extend(table_layout())?;
    out.extend(printed_layout())?;
    out.extend(links())?;
    Ok(())
}
