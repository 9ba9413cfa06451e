// Messages by hand: each kind as the bytes that the format gives it, and bytes that are no message.

#![tactic(auto)]

#[cfg(test)]
mod tests {
    use std::process::Abort;
    use std::test::Fail;
    use wire::{Census, House, Message, Name, Part, Refusal, RoundNumber, Stamp, Tally};

    const NO_OBJECTS: [u8; 0] = [];

    // What is written of the message is just these bytes.
    fn writes(
        rt: &(impl Abort + AllocGlobal),
        message: Message,
        objects: &[u8],
        bytes: &[u8],
    ) -> Result<(), Fail> {
        let mut out = Vec::new(rt.alloc());
        wire::write(message, objects, &mut out)?;
        assert!(rt; out.as_slice() == bytes);
        Ok(())
    }

    #[test]
    fn fixed_messages(rt: HostRuntime) -> Result<(), Fail> {
        // 258 = 16 · 16 + 2
        let object = Name(258);
        let census = Census(0x0102_0304);
        let ask = Message::Ask {
            object,
            by: House(1),
            to: House(3),
        };
        writes(&rt, ask, &NO_OBJECTS, &[1, 0, 0, 1, 2, 1, 3])?;
        let give = Message::Give {
            object,
            to: House(3),
            stamp: Stamp(65536),
        };
        writes(&rt, give, &NO_OBJECTS, &[2, 0, 0, 1, 2, 3, 0, 1, 0, 0])?;
        let telling = Message::Telling {
            census,
            object,
            from: House(0),
        };
        writes(&rt, telling, &NO_OBJECTS, &[4, 1, 2, 3, 4, 0, 0, 1, 2, 0])?;
        let answer = Message::Answer {
            census,
            object,
            from: House(0),
        };
        writes(&rt, answer, &NO_OBJECTS, &[5, 1, 2, 3, 4, 0, 0, 1, 2, 0])
    }

    #[test]
    fn messages_of_rounds(rt: HostRuntime) -> Result<(), Fail> {
        let census = Census(1);
        let number = RoundNumber(2);
        writes(
            &rt,
            Message::Round { census, number },
            &NO_OBJECTS,
            &[6, 0, 0, 0, 1, 0, 0, 0, 2],
        )?;
        let reply = Message::Reply {
            census,
            number,
            from: House(3),
            calm: true,
            tally: Tally(256),
        };
        writes(
            &rt,
            reply,
            &NO_OBJECTS,
            &[7, 0, 0, 0, 1, 0, 0, 0, 2, 3, 1, 0, 0, 1, 0],
        )?;
        writes(
            &rt,
            Message::Complete { census },
            &NO_OBJECTS,
            &[8, 0, 0, 0, 1],
        )
    }

    #[test]
    fn word_with_objects(rt: HostRuntime) -> Result<(), Fail> {
        let word = Message::Word {
            from: House(1),
            to: House(0),
            stamp: Stamp(7),
            objects: Part { at: 9, count: 2 },
        };
        writes(
            &rt,
            word,
            &[0, 0, 0, 16, 0, 0, 1, 0],
            &[3, 1, 0, 0, 0, 0, 7, 0, 2, 0, 0, 0, 16, 0, 0, 1, 0],
        )
    }

    #[test]
    fn read_word(rt: HostRuntime) -> Result<(), Fail> {
        match wire::read(&[3, 1, 0, 0, 0, 0, 7, 0, 2, 0, 0, 0, 16, 0, 0, 1, 0], 2) {
            Ok(came) => {
                assert!(rt; came.objects == [0, 0, 0, 16, 0, 0, 1, 0].as_slice());
                match came.message {
                    Message::Word {
                        from,
                        to,
                        stamp,
                        objects,
                    } => {
                        assert_eq!(rt;
                            (from.0, to.0, stamp.0, objects.at, objects.count),
                            (1, 0, 7, 9, 2)
                        );
                        Ok(())
                    },
                    _ => Err(Fail::new("another message")),
                }
            }
            Err(_) => Err(Fail::new("refused")),
        }
    }

    fn is_none(rt: &impl Abort, bytes: &[u8], houses: u8) {
        assert!(rt; wire::read(bytes, houses).is_err());
    }

    #[test]
    fn malformed(rt: HostRuntime) {
        is_none(&rt, &[], 2);
        is_none(&rt, &[0], 2);
        is_none(&rt, &[9, 0, 0, 0, 1], 2);
        is_none(&rt, &[255], 2);
        // too short, too long
        is_none(&rt, &[8, 0, 0, 0], 2);
        is_none(&rt, &[8, 0, 0, 0, 1, 0], 2);
        // a house that is not there, the home of a name too, and number 0
        is_none(&rt, &[1, 0, 0, 0, 16, 0, 2], 2);
        is_none(&rt, &[1, 0, 0, 0, 18, 0, 1], 2);
        is_none(&rt, &[1, 0, 0, 0, 1, 0, 1], 2);
        // calm is 0 or 1
        is_none(&rt, &[7, 0, 0, 0, 1, 0, 0, 0, 2, 0, 2, 0, 0, 0, 0], 2);
    }

    #[test]
    fn malformed_words(rt: HostRuntime) {
        // a count that is too high, objects that do not rise, one of another house
        is_none(&rt, &[3, 1, 0, 0, 0, 0, 7, 0, 2, 0, 0, 0, 16], 2);
        is_none(
            &rt,
            &[3, 1, 0, 0, 0, 0, 7, 0, 2, 0, 0, 0, 32, 0, 0, 0, 16],
            2,
        );
        is_none(
            &rt,
            &[3, 1, 0, 0, 0, 0, 7, 0, 2, 0, 0, 0, 16, 0, 0, 0, 16],
            2,
        );
        is_none(&rt, &[3, 1, 0, 0, 0, 0, 7, 0, 1, 0, 0, 0, 17], 2);
    }

    #[test]
    fn names(rt: HostRuntime) {
        match Name::new(2, House(1)) {
            Ok(name) => assert_eq!(rt; (name.0, name.number(), name.home().0), (33, 2, 1)),
            Err(_) => assert!(rt; false),
        }
        assert!(rt; Name::new(268435455, House(15)).is_ok());
        assert!(rt; Name::new(268435456, House(0)).is_err());
        assert!(rt; Name::new(0, House(0)).is_err());
    }

    // Numbers and refusals print as the programs show them.
    #[test]
    fn printed(rt: HostRuntime) -> Result<(), Fail> {
        let (house, name, stamp, census) = (House(15), Name(33), Stamp(u32::MAX), Census(0));
        let text = format!(in rt.alloc();
            "{house} {name} {stamp} {census} {}",
            Refusal::WrongHouse
        )?;
        assert!(rt; text.as_str() == "15 33 4294967295 0 11");
        Ok(())
    }
}
