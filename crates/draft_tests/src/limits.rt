// The limits one at a time: as much as there may be is taken, and one more is declined with its place.
use book::refusal::{Cause, Refusal};
use draft::draft::Draft;
use std::array;
use std::test::Fail;

// The numbers 0, 1, 2 and so on.
fn ascending() -> [usize; 255] {
    array::from_fn(|i| i)
}

#[test]
fn a_draft_is_at_first_for_no_atoms(rt: HostRuntime) {
    let mut draft = Draft::new();
    assert_eq!(rt; draft.add(0, &[], &[]), Err(Refusal::new(Cause::Head, 0)));
}

#[test]
fn a_draft_by_default_is_for_no_atoms(rt: HostRuntime) {
    let mut draft = Draft::default();
    assert_eq!(rt; draft.add(0, &[], &[]), Err(Refusal::new(Cause::Head, 0)));
}

#[test]
fn a_draft_has_128_atoms(rt: HostRuntime) -> Result<(), Fail> {
    let mut draft = Draft::new();
    draft.start(128)?;
    draft.add(127, &[127], &[127])?;
    assert_eq!(rt; draft.add(128, &[], &[]), Err(Refusal::new(Cause::Head, 0)));
    assert_eq!(rt; draft.start(129), Err(Refusal::new(Cause::Limit, 0)));
    assert_eq!(rt; draft.start(usize::MAX), Err(Refusal::new(Cause::Limit, 0)));
    draft.add(127, &[], &[])?;
    Ok(())
}

#[test]
fn a_draft_has_256_rules(rt: HostRuntime) -> Result<(), Fail> {
    let mut draft = Draft::new();
    draft.start(1)?;
    for _ in 0..256 {
        draft.add(0, &[], &[])?;
    }
    assert_eq!(rt; draft.add(0, &[], &[]), Err(Refusal::new(Cause::Full, 0)));
    assert_eq!(rt; draft.add(0, &[1], &[]), Err(Refusal::new(Cause::Full, 0)));
    assert_eq!(rt; draft.add(1, &[], &[]), Err(Refusal::new(Cause::Head, 0)));
    Ok(())
}

#[test]
fn a_part_has_255_atoms(rt: HostRuntime) -> Result<(), Fail> {
    let mut draft = Draft::new();
    draft.start(128)?;
    let part = ascending();
    assert_eq!(rt;
        draft.add(0, &part, &[]),
        Err(Refusal::new(Cause::Range, 128))
    );
    assert_eq!(rt;
        draft.add(0, &[3, 4], &part),
        Err(Refusal::new(Cause::Range, 130))
    );
    assert_eq!(rt;
        draft.add(0, &[0; 256], &[]),
        Err(Refusal::new(Cause::Full, 0))
    );
    assert_eq!(rt;
        draft.add(0, &[], &[0; 256]),
        Err(Refusal::new(Cause::Full, 0))
    );
    assert_eq!(rt;
        draft.add(0, &[0; 255], &[]),
        Err(Refusal::new(Cause::Order, 1))
    );
    assert_eq!(rt;
        draft.add(0, &[3, 4], &[0; 255]),
        Err(Refusal::new(Cause::Order, 3))
    );
    Ok(())
}

#[test]
fn a_draft_has_2048_literals(rt: HostRuntime) -> Result<(), Fail> {
    let mut draft = Draft::new();
    draft.start(128)?;
    let part = ascending();
    for head in 0..8 {
        draft.add(head, &part[..128], &part[..128])?;
    }
    assert_eq!(rt; draft.add(0, &[0], &[]), Err(Refusal::new(Cause::Full, 0)));
    assert_eq!(rt; draft.add(0, &[], &[0]), Err(Refusal::new(Cause::Full, 0)));
    draft.add(0, &[], &[])?;
    Ok(())
}
