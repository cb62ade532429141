//! Sample texts, against one that was written by hand from the rules of the layout, and against lengths that were
//! reckoned from them.

use spec_sample::sample;
use std::test::Fail;

/// The sample text of two components.
const TWO: &[u8] = b"COMPONENT L1 system
  INTERFACE
    INPUT PORT req: boolean;
    OUTPUT PORT ack: boolean;
    CONTRACT resp
      assume: true;
      guarantee: always (req implies in the future ack);
  REFINEMENT
    SUB h: Stage;
    SUB t: L2;
    CONNECTION h.req := req;
    CONNECTION t.req := h.ack;
    CONNECTION ack := t.ack;
    CONTRACT resp REFINEDBY h.resp, t.resp;

COMPONENT L2
  INTERFACE
    INPUT PORT req: boolean;
    OUTPUT PORT ack: boolean;
    CONTRACT resp
      assume: true;
      guarantee: always (req implies in the future ack);
  REFINEMENT
    SUB h: Stage;
    CONNECTION h.req := req;
    CONNECTION ack := h.ack;
    CONTRACT resp REFINEDBY h.resp;

COMPONENT Stage
  INTERFACE
    INPUT PORT req: boolean;
    OUTPUT PORT ack: boolean;
    CONTRACT resp
      assume: true;
      guarantee: always (req implies in the future ack);
";

#[test]
fn the_sample_of_two(rt: HostRuntime) -> Result<(), Fail> {
    let text = sample(rt.alloc(), 2)?;
    assert!(rt; text.as_slice() == TWO);
    Ok(())
}

#[test]
fn lengths_of_samples(rt: HostRuntime) -> Result<(), Fail> {
    assert_eq!(rt; sample(rt.alloc(), 1)?.len(), 494);
    assert_eq!(rt; sample(rt.alloc(), 12)?.len(), 4_449);
    assert_eq!(rt; sample(rt.alloc(), 40)?.len(), 14_557);
    assert_eq!(rt; sample(rt.alloc(), 400)?.len(), 145_119);
    Ok(())
}
