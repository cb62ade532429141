//! The canonical text of a small specification, written by hand from the rules of the layout.

use crate::reading::read;
use oss_base::Stop;
use oss_printer::print;
use port_types::Text;
use std::alloc::Global;
use std::test::Fail;

/// A specification in another layout, and with other spellings of its words.
const LOOSE: &[u8] = b"-- two components
COMPONENT Thr system INTERFACE INPUT PORT n:-0 .. 3;OUTPUT PORT light:{red,green};
CONTRACT safe assume:TRUE;guarantee:G(a -> next ( p )) & -7=x;
REFINEMENT SUB a:Valve;CONNECTION a.open:=cmd;CONNECTION fire:=a.flow | FALSE;
CONTRACT safe REFINEDBY a.tight,b.tight;
COMPONENT Valve INTERFACE INPUT PORT e:event;REFINEMENT";

/// Its canonical text.
const TEXT: &[u8] = b"COMPONENT Thr system
  INTERFACE
    INPUT PORT n: -0..3;
    OUTPUT PORT light: {red, green};
    CONTRACT safe
      assume: true;
      guarantee: always (a implies next(p)) and - 7 = x;
  REFINEMENT
    SUB a: Valve;
    CONNECTION a.open := cmd;
    CONNECTION fire := a.flow or false;
    CONTRACT safe REFINEDBY a.tight, b.tight;

COMPONENT Valve
  INTERFACE
    INPUT PORT e: event;
  REFINEMENT
";

/// The canonical text of what a text stands for.
fn printed(alloc: Global, text: &[u8]) -> Result<Text, Stop> {
    let tree = read(alloc, text)?;
    let text = print(alloc, &tree)?;
    Ok(text)
}

#[test]
fn canonical_text_of_a_specification(rt: HostRuntime) -> Result<(), Fail> {
    let text = printed(rt.alloc(), LOOSE)?;
    assert!(rt; text.as_slice() == TEXT);
    let none = printed(rt.alloc(), b"")?;
    assert_eq!(rt; none.len(), 0);
    Ok(())
}
