//! Rows of codes, of their texts in messages, and of errors.

use crate::call::Call;
use crate::printed::Printed;
use gabc_places::{Code, Fault, Finding, Place, SinkFault, SourceFault, Unsent};

/// The codes that rows name.
const NAMED: [Code; 9] = [
    Code::E1,
    Code::E6,
    Code::W1,
    Code::W6,
    Code::W10,
    Code::W11,
    Code::W12,
    Code::F1,
    Code::F7,
];

/// Returns the code of this name, if rows name it.
pub(crate) fn code_of(name: &str) -> Option<Code> {
    for code in NAMED {
        if code.name() == name {
            return Some(code);
        }
    }
    None
}

/// Prints a code by its name and by itself, and its severity.
fn show_code(code: Code, out: &mut Printed) {
    out.put(code.name());
    out.put(" ");
    out.show(&code);
    out.put(" ");
    out.show(&code.severity());
    out.put(" ");
    out.show_debug(&code.severity());
}

/// Prints the finding or the fault with the code `name` at `place`, as `call` asks.
pub(crate) fn answer_at(call: &str, place: Place, name: &str, out: &mut Printed) {
    match (call, code_of(name)) {
        ("finding", Some(code)) => out.show(&Finding { place, code }),
        ("fault", Some(code)) => out.show(&Fault { place, code }),
        _ => out.refuse(),
    }
}

/// Prints an error by its name.
fn show_error(name: &str, out: &mut Printed) {
    match name {
        "SourceFault" => out.show(&SourceFault),
        "SinkFault" => out.show(&SinkFault),
        "Unsent 7" => out.show(&Unsent { sent: 7 }),
        _ => out.refuse(),
    }
}

/// Prints the answer of a call.
pub(crate) fn answer(call: Call, out: &mut Printed) {
    match (call.name, code_of(call.text)) {
        ("code", Some(code)) => show_code(code, out),
        ("error", _) => show_error(call.text, out),
        _ => out.refuse(),
    }
}
