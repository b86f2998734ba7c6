//! The reader on worked examples. The book of the odd loop has one rule, x if not x.
#![tactic(auto)]

ghost use Rattle.std.specs.Prelude.{◌<◌};

#[cfg(test)]
mod tests {
    use book::book::Book;
    use book::book::rules::atom_at;
    use book::faults::{BookFault, Layer, RuleFault};
    use book::refusal::{Cause, Refusal};
    use std::test::Fail;

    const ODD_LOOP: [u8; 14] = [1, 0, 1, 0, 1, 0, 0, 0, 0, 0, 0, 1, 0, 0];

    fn fault(
        layer: Layer,
        rule: Option<usize>,
        cause: Cause,
        place: usize,
    ) -> Result<(), BookFault> {
        let field = Refusal::new(cause, place);
        let fault = RuleFault { rule, field };
        Err(BookFault { layer, fault })
    }

    // The book of the odd loop, in use.
    fn odd_loop() -> Result<Book<'static>, BookFault> {
        Book::try_from(&ODD_LOOP[..])
    }

    // What reading answers to the odd loop with another byte at a place.
    fn read_changed(place: usize, byte: u8) -> Result<(), BookFault>
        requires { place < 14 }
    {
        let mut bytes = ODD_LOOP;
        bytes[place] = byte;
        Book::empty().read(&bytes)
    }

    #[test]
    fn the_odd_loop_is_one_rule_without_positive_atoms(rt: HostRuntime) -> Result<(), Fail> {
        let book = odd_loop()?;
        assert_eq!(rt; book.atoms(), 1);
        assert_eq!(rt; book.rules(), 1);
        let rule = book.rule(0)?;
        assert_eq!(rt; rule.head, 0);
        assert_eq!(rt; rule.positives.len(), 0);
        assert_eq!(rt; rule.negatives.len(), 2);
        assert_eq!(rt; atom_at(rule.negatives, 0), 0);
        Ok(())
    }

    #[test]
    fn five_bytes_are_too_few(rt: HostRuntime) {
        let read = Book::empty().read(&ODD_LOOP[0..5]);
        assert_eq!(rt; read, fault(Layer::Header, None, Cause::Short, 5));
    }

    #[test]
    fn a_head_is_an_atom(rt: HostRuntime) {
        assert_eq!(rt;
            read_changed(6, 1),
            fault(Layer::Contents, Some(0), Cause::Head, 6)
        );
    }

    #[test]
    fn a_literal_is_an_atom(rt: HostRuntime) {
        assert_eq!(rt;
            read_changed(13, 1),
            fault(Layer::Bodies, Some(0), Cause::Range, 12)
        );
    }

    #[test]
    fn a_book_has_at_most_128_atoms(rt: HostRuntime) -> Result<(), Fail> {
        Book::empty().read(&[128, 0, 0, 0, 0, 0])?;
        let read = Book::empty().read(&[129, 0, 0, 0, 0, 0]);
        assert_eq!(rt; read, fault(Layer::Header, None, Cause::Limit, 0));
        Ok(())
    }

    #[test]
    fn a_declined_book_leaves_the_one_in_use(rt: HostRuntime) -> Result<(), Fail> {
        let mut book = odd_loop()?;
        assert!(rt; book.read(&[0, 0, 0]).is_err());
        assert_eq!(rt; book.rules(), 1);
        Ok(())
    }

    #[test]
    fn a_rule_has_a_number_below_their_count(rt: HostRuntime) -> Result<(), Fail> {
        let rule = odd_loop()?.rule(1);
        assert_eq!(rt; rule.err(), Some(Refusal::new(Cause::Range, 0)));
        Ok(())
    }
}
