//! Operators and layers on worked examples.
#![tactic(auto)]

#[cfg(test)]
mod tests {
    use book::book::Book;
    use book::refusal::{Cause, Refusal};
    use layers::nothing::Nothing;
    use layers::sequence::Sequence;
    use operator::forward::Forward;
    use operator::operator::{Operator, Verdict};
    use operator::unfounded::Unfounded;
    use std::test::Fail;

    // a if not b, b if not a, c if not d, d if not c
    const TWO_PAIRS: &[u8] =
        b"\x04\x00\x04\x00\x04\x00\x00\x00\x00\x00\x00\x01\x01\x00\x01\x00\x00\x01\x02\x00\x02\x00\x00\x01\x03\x00\x03\x00\x00\x01\x01\x00\x00\x00\x03\x00\x02\x00";

    // a if b, b if a, a if not c, c if not a, c if b
    const FIVE_RULES: &[u8] =
        b"\x03\x00\x05\x00\x05\x00\x00\x00\x00\x00\x01\x00\x01\x00\x01\x00\x01\x00\x00\x00\x02\x00\x00\x01\x02\x00\x03\x00\x00\x01\x02\x00\x04\x00\x01\x00\x01\x00\x00\x00\x02\x00\x00\x00\x01\x00";

    #[test]
    fn unfounded_clashes_where_two_atoms_of_a_loop_are_in(rt: HostRuntime) -> Result<(), Fail> {
        let book = Book::try_from(FIVE_RULES)?;
        let mut page = [0, 2, 2, 0, 0, 0, 0, 0];
        assert_eq!(rt; Unfounded.apply(&book, &mut page)?, Verdict::Clash);
        assert_eq!(rt; page, [0, 2, 2, 0, 0, 0, 0, 0]);
        Ok(())
    }

    #[test]
    fn forward_uses_no_mark_of_its_own(rt: HostRuntime) -> Result<(), Fail> {
        let book = Book::try_from(TWO_PAIRS)?;
        let mut page = [1, 0, 0, 0, 0, 0, 0, 0];
        assert_eq!(rt; Forward.apply(&book, &mut page)?, Verdict::Marked);
        assert_eq!(rt; page, [1, 0, 0, 0, 0, 2, 0, 0]);
        Ok(())
    }

    #[test]
    fn a_clash_of_the_second_operator_leaves_the_page(rt: HostRuntime) -> Result<(), Fail> {
        let book = Book::try_from(FIVE_RULES)?;
        let mut both = Sequence {
            first: Forward,
            second: Unfounded,
        };
        let mut page = [0, 2, 2, 0, 0, 0, 0, 0];
        assert_eq!(rt; both.apply(&book, &mut page)?, Verdict::Clash);
        assert_eq!(rt; page, [0, 2, 2, 0, 0, 0, 0, 0]);
        Ok(())
    }

    #[test]
    fn a_page_has_a_mark_for_each_object(rt: HostRuntime) -> Result<(), Fail> {
        let book = Book::try_from(TWO_PAIRS)?;
        assert_eq!(rt;
            Nothing.apply(&book, &mut [0; 7]),
            Err(Refusal::new(Cause::Length, 7))
        );
        assert_eq!(rt;
            Nothing.apply(&book, &mut [0, 0, 3, 0, 0, 4, 0, 0]),
            Err(Refusal::new(Cause::Value, 2))
        );
        Ok(())
    }
}
