// Lines and what they give.
use engine::Call;
use lines::commands::Command;
use lines::{accept, decode};
use market::NewLink;
use std::test::Fail;
use words::{FaultReport, FieldFault, LineFault};

#[test]
fn commands(rt: HostRuntime) {
    assert!(rt; decode(b"take") == Ok(Command::Call(Call::Take)));
    assert!(rt;
        decode(b"link 007 12")
            == Ok(Command::Link(NewLink {
                supplier: 7,
                shipper: 12,
            }))
    );
    assert!(rt;
        decode(b"advance 9999999999999")
            == Ok(Command::Call(Call::Advance {
                moment: 9_999_999_999_999,
            }))
    );
}

// The first fault in the order too long, unknown word, wrong count, field.
#[test]
fn faults(rt: HostRuntime) {
    assert!(rt; decode(&[b'x'; 81]) == Err(LineFault::TooLong));
    assert!(rt; decode(b"") == Err(LineFault::UnknownWord));
    assert!(rt; decode(b"take ") == Err(LineFault::WrongCount));
    assert!(rt;
        decode(b"advance 10000000000000")
            == Err(LineFault::Field(FieldFault::NotANumber { place: 1 }))
    );
    assert!(rt; decode(b"link 1 x") == Err(LineFault::Field(FieldFault::NotANumber { place: 2 })));
}

#[test]
fn printed(rt: HostRuntime) -> Result<(), Fail> {
    let Err(fault) = accept(b"link 1 x") else {
        return Err(Fail::new("accepted"));
    };
    let text = format!(in rt.alloc(); "{}", FaultReport { line: 3, fault })?;
    assert!(rt; text.as_str() == "line 3 fault 21 field 2");
    Ok(())
}
