// The call: refusals in their order (14, 7, 9, 1, line by line 6, 5, 2, 3, then 4 and 10 to 13 as emission meets them, 15), finished code and its line list.
// It is parted behind the room; only the entry zeroes.
ghost use Rattle.std.specs.Prelude.{◌≡◌, length, OnOk, None};
ghost use Rattle.definition.specs.Compile.{compile_program, Compiles};
ghost use Rattle.definition.specs.Claims.{Safe, Faithful};
ghost use Rattle.opcode.specs.Table.{IsTable, Good, sheet_in};
ghost use Rattle.rules.specs.View.{rules_in};
ghost use Rattle.program.specs.Check.{Accepts, checked_view, program_of};
ghost use Rattle.emit.specs.View.{world, state, view};
ghost use Rattle.emit.specs.Steps.{Fine};
ghost use Rattle.compile.specs.View.{Patchable};
ghost use Rattle.compile.specs.Call.{room, answer_view, finishing, Roomy, Ends};
ghost use Rattle.compile.specs.Entry.{FromFile, behind_rules, behind_sheet, Finds};

use crate::call::Compiled;
use crate::{Emitted, call};
use definition::{MAX_CODE, Refusal, Refused};
use emit::{Book, Constant, Emitter, book};
use program::{Checked, Cursor};
use rules::Rules;

// Behind emission: its refusal, or finished code, constants and line list in the lent outputs.
fn finish(
    sheet: &[u8],
    rules: Rules,
    e: Emitter,
    book: &Book,
    code: &mut [u8],
    constants: &mut [Constant],
    lines: &mut [u16],
) -> Result<Compiled, Refused>
    requires table { IsTable sheet.now }
    requires fine { Fine e }
    requires roomy { Roomy (room code.old constants.old lines.old) }
    requires patchable { e.refused ≡ None → Patchable (sheet_in sheet.now) (rules_in rules.table.now rules.count) (state (world e code.old book.now constants.old)) }
    ensures { Ends (finishing (sheet_in sheet.now) (rules_in rules.entry.table.now rules.entry.count) (view (world e code.old book.now constants.old))) code.old constants.old lines.old code.new constants.new lines.new result }
{
    if let Some(refused) = e.refused {
        return Err(refused);
    }
    let emitted = Emitted { emitter: e, book };
    match crate::finalize_function(sheet, rules, emitted, code, lines) {
        Err(from) => Err(Refused {
            refusal: Refusal::FarBranch,
            place: usize::from(from),
        }),
        Ok(f) => {
            store::set_from(constants, e.constants, 0);
            Ok(Compiled {
                bytes: f.size,
                depth: f.max_stack_depth,
                constants: e.constants,
                entries: f.entries,
            })
        }
    }
}

// A text that was checked: its emission, and what follows.
fn compile_accepted(
    sheet: &[u8],
    rules: Rules,
    text: &[u8],
    checked: Checked,
    code: &mut [u8],
    constants: &mut [Constant],
    lines: &mut [u16],
) -> Result<Compiled, Refused>
    requires table { IsTable sheet.now }
    requires good { Good (sheet_in sheet.now) }
    requires from_file { FromFile (rules_in rules.table.now rules.count) }
    requires accepts { Accepts text.now (checked_view checked).0 checked.next }
    requires roomy { Roomy (room code.old constants.old lines.old) }
    ensures { Ends (compile_program (sheet_in sheet.now) (rules_in rules.entry.table.now rules.entry.count) (program_of text.now (checked_view checked).0)) code.old constants.old lines.old code.new constants.new lines.new result }
{
    let mut book = [0u16; book::BOOK_SIZE];
    let mut pool = [0u32; emit::POOL_SIZE];
    let begun = Emitter::new(checked.pos);
    let top = Cursor {
        at: checked.next,
        row: 2,
    };
    let walked = stmt::emit_stmts(
        text,
        sheet,
        &mut code[..MAX_CODE],
        &mut book,
        &mut pool,
        checked.variables,
        usize::from(checked.statements),
        begun,
        top,
    );
    let e = walked.emitter;
    store::fill_from(&pool[..e.constants], constants, 0);
    finish(sheet, rules, e, &book, code, constants, lines)
}

// The part behind the sheet: 9, then 1, and line by line 6, 5, 2 and 3; then the rest. After a refusal nothing is said of the outputs.
fn compile_program(
    sheet: &[u8],
    rules: &[u8],
    text: &[u8],
    code: &mut [u8],
    constants: &mut [Constant],
    lines: &mut [u16],
) -> Result<Compiled, Refused>
    requires table { IsTable sheet.now }
    requires good { Good (sheet_in sheet.now) }
    requires roomy { Roomy (room code.old constants.old lines.old) }
    ensures { Ends (behind_sheet (sheet_in sheet.now) rules.now text.now) code.old constants.old lines.old code.new constants.new lines.new result }
{
    let mut table = [0u16; rules::TABLE_SIZE];
    let count = rules::read_rules(rules, &mut table)?;
    let rules = Rules {
        table: &table,
        count,
    };
    let checked = program::check_program(text)?;
    compile_accepted(sheet, rules, text, checked, code, constants, lines)
}

// 14, 7, then the part behind the sheet.
fn compile_into(
    sheet: &[u8],
    rules: &[u8],
    program: &[u8],
    code: &mut [u8],
    constants: &mut [Constant],
    lines: &mut [u16],
) -> Result<Compiled, Refused>
    ensures { Finds sheet.now rules.now program.now code.old constants.old lines.old code.new constants.new lines.new result }
{
    if !call::roomy(code.len(), constants.len(), lines.len()) {
        return Err(Refused {
            refusal: Refusal::OutputShort,
            place: 0,
        });
    }
    let mut table = [0u8; opcode::sheet::TABLE_SIZE];
    opcode::sheet::read_sheet(sheet, &mut table)?;
    compile_program(&table, rules, program, code, constants, lines)
}

// The call, from any bytes and into any outputs.
pub fn compile(
    sheet: &[u8],
    rules: &[u8],
    program: &[u8],
    code: &mut [u8],
    constants: &mut [Constant],
    lines: &mut [u16],
) -> Result<Compiled, Refused>
    ensures compiles { Compiles (room code.old constants.old lines.old) sheet.now rules.now program.now (answer_view result code.new constants.new lines.new) }
    ensures safe { OnOk result (Safe sheet.now rules.now program.now (answer_view result code.new constants.new lines.new)) }
    ensures faithful { OnOk result (length rules.now ≡ 0 → Faithful sheet.now program.now (answer_view result code.new constants.new lines.new)) }
{
    let outcome = compile_into(sheet, rules, program, code, constants, lines);
    call::settle(outcome, code, constants, lines)
}
