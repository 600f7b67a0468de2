// Small examples of the lower layers, run as tests.
#![tactic(auto)]

#[cfg(test)]
mod tests {
    use casefile::case::Case;
    use closure::{Misfit, distances, reach};
    use cycles::shortest_cycle;
    use records::fault::{Cause, Fault};
    use records::mark::{Mark, Record};
    use records::survey::survey;
    use relation::Relation;
    use std::test::Fail;

    // 0 to 1 to 2, and no way back.
    #[test]
    fn a_chain_reaches_on(rt: HostRuntime) {
        let mut steps = [false, true, false, false, false, true, false, false, false];
        assert_eq!(rt; reach(&mut steps, 3), Ok(()));
        assert_eq!(rt;
            steps,
            [false, true, true, false, false, true, false, false, false]
        );
    }

    #[test]
    fn a_short_slice_is_refused(rt: HostRuntime) {
        let mut steps = [None; 8];
        assert_eq!(rt; distances(&mut steps, 3), Err(Misfit::Values));
        assert_eq!(rt; distances(&mut steps, 65), Err(Misfit::Rows));
    }

    // A ring of four events with a chord that makes a ring of three: 0 1 2 3, and 2 back to 0.
    #[test]
    fn the_shorter_ring_is_the_witness(rt: HostRuntime) {
        let mut ring = Relation::empty();
        ring.add(0, 1);
        ring.add(1, 2);
        ring.add(2, 3);
        ring.add(3, 0);
        ring.add(2, 0);
        let mut memory = [255u8; 64];
        assert_eq!(rt; shortest_cycle(&ring, &mut memory), Some(3));
        assert_eq!(rt;
            [memory[0], memory[1], memory[2], memory[3]],
            [0, 1, 2, 255]
        );
    }

    #[test]
    fn a_late_thread_is_a_fault(rt: HostRuntime) -> Result<(), Fail> {
        match survey(b"TH\x00\x00OR\x00\x01TH\x00\x00EN") {
            Ok(_) => Err(Fail::new("a thread after an edge was taken")),
            Err(Fault { cause, place }) => {
                assert_eq!(rt; cause, Cause::LateRow);
                assert_eq!(rt; place, 8);
                Ok(())
            }
        }
    }
    // The rows are read at once; then the question comes, and then the end.
    #[test]
    fn a_question_is_handed_out(rt: HostRuntime) -> Result<(), Fail> {
        let mut case = Case::new(b"TH\x00\x00QU\x00\x00\x00\x00EN");
        match case.next() {
            Ok(
                Some(
                    Record {
                        mark: Mark::Question,
                        body: _,
                        place,
                    },
                ),
            ) => {
                assert_eq!(rt; place, 4);
                Ok(())
            },
            _ => Err(Fail::new("no question came")),
        }
    }
}
