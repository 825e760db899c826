ghost use Rattle.std.specs.Prelude.{◌≡◌, ◌++◌, length, OnOk, IfOk};
ghost use Rattle.mc_program.specs.Printed.{binding_text, more_bindings, answer_text, rule_name, broken_text};

use itoa::Buffer;
use mc_base::{Memory, Row, Text};
use mc_source::rule::{Broken, Rule};
use std::alloc::Global;

/// Writes a variable and its value.
fn write_binding(out: &mut Text, name: &Text, value: &Text) -> Result<(), Memory>
    ensures { OnOk result (out.new ≡ out.old ++ binding_text name.now value.now) }
{
    out.extend(name.bytes())?;
    out.extend(b" = ")?;
    out.extend(value.bytes())
}

/// Writes the bindings after the first.
fn write_bindings(out: &mut Text, names: &[Text], values: &[Text]) -> Result<(), Memory>
    requires { length names.now ≡ length values.now }
    ensures { OnOk result (out.new ≡ out.old ++ more_bindings names.now values.now) }
{
    for (k, name) in names.iter().enumerate() {
        out.extend(b", ")?;
        write_binding(out, name, &values[k])?;
    }
    Ok(())
}

/// The line of an answer, `X = v, Y = w.` or `true.`, with a line end, by the variables' names and the values' texts.
pub fn answer_line(alloc: Global, names: &Row<Text>, values: &Row<Text>) -> Result<Text, Memory>
    requires { length names.now ≡ length values.now }
    ensures { IfOk result (λ line. line ≡ answer_text names.now values.now) }
{
    match (names.as_slice(), values.as_slice()) {
        ([name, names @ ..], [value, values @ ..]) => {
            let mut out = Text::empty(alloc);
            write_binding(&mut out, name, value)?;
            write_bindings(&mut out, names, values)?;
            out.extend(b".\n")?;
            Ok(out)
        }
        _ => Text::new(alloc, b"true.\n"),
    }
}

/// The name of a rule.
fn rule_name(rule: Rule) -> &'static [u8; 2]
    ensures { result.now ≡ rule_name rule }
{
    match rule {
        Rule::S1 => b"S1",
        Rule::S2 => b"S2",
        Rule::S3 => b"S3",
        Rule::S4 => b"S4",
        Rule::S5 => b"S5",
        Rule::S6 => b"S6",
        Rule::X1 => b"X1",
        Rule::L1 => b"L1",
        Rule::L2 => b"L2",
        Rule::L3 => b"L3",
        Rule::L4 => b"L4",
        Rule::F3 => b"F3",
        Rule::N1 => b"N1",
        Rule::N2 => b"N2",
        Rule::N3 => b"N3",
        Rule::N4 => b"N4",
        Rule::N5 => b"N5",
        Rule::N6 => b"N6",
        Rule::N7 => b"N7",
        Rule::N8 => b"N8",
        Rule::M5 => b"M5",
        Rule::F1 => b"F1",
        Rule::F2 => b"F2",
        Rule::F4 => b"F4",
        Rule::T3 => b"T3",
        Rule::T4 => b"T4",
        Rule::T5 => b"T5",
        Rule::L5 => b"L5",
        Rule::T1 => b"T1",
        Rule::T2 => b"T2",
        Rule::M6 => b"M6",
        Rule::M7 => b"M7",
        Rule::M8 => b"M8",
        Rule::M1 => b"M1",
        Rule::M2 => b"M2",
        Rule::M3 => b"M3",
        Rule::M4 => b"M4",
        Rule::E1 => b"E1",
        Rule::E2 => b"E2",
        Rule::E3 => b"E3",
        Rule::E4 => b"E4",
        Rule::U1 => b"U1",
        Rule::C1 => b"C1",
        Rule::C2 => b"C2",
        Rule::C3 => b"C3",
    }
}

/// The line of a broken rule, `FILE:LINE: RULE TEXT`, with a line end.
pub fn broken_line(alloc: Global, file: &Text, b: &Broken) -> Result<Text, Memory>
    ensures { IfOk result
        (λ line. line ≡ broken_text file.now b.now.at.line b.now.rule b.now.what) }
{
    let mut out = Text::new(alloc, file.bytes())?;
    out.extend(b":")?;
    out.extend(Buffer::new().format(b.at.line).as_bytes())?;
    out.extend(b": ")?;
    out.extend(rule_name(b.rule))?;
    out.extend(b" ")?;
    out.extend(b.what.bytes())?;
    out.extend(b"\n")?;
    Ok(out)
}
