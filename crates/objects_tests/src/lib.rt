// Examples of the objects of a house, worked by hand.

#![tactic(auto)]

#[cfg(test)]
mod tests {
    use objects::{Object, Objects};
    use std::test::Fail;
    use wire::Refusal::{Malformed, NoField, NoRoom, NotRoot, OutOfNumbers};
    use wire::{House, Name, Refusal};

    // House 0 of two, with the objects 16, 32, .. up to the number given, all roots.
    fn house(rt: &HostRuntime, objects: u64) -> Result<Objects, Fail> {
        let mut t = Objects::new(rt.alloc(), House(0), 2).map_err(|_| Fail::new("no house"))?;
        for k in 0..objects {
            t.make(k + 1).map_err(|_| Fail::new("not made"))?;
        }
        Ok(t)
    }

    fn link(t: &mut Objects, o: u32, p: u32) -> Result<(), Refusal> {
        t.link(Name(o), Name(p))
    }

    fn unlink(t: &mut Objects, o: u32, p: u32) -> Result<(), Refusal> {
        t.unlink(Name(o), Name(p))
    }

    fn load(t: &mut Objects, o: u32, p: u32) -> Result<(), Refusal> {
        t.load(Name(o), Name(p))
    }

    fn release(t: &mut Objects, o: u32) -> Result<(), Refusal> {
        t.release(Name(o))
    }

    fn take(t: &mut Objects, o: u32) -> Result<(), Refusal> {
        t.take(Name(o))
    }

    fn make(t: &mut Objects, number: u64) -> Result<(), Refusal> {
        t.make(number).map(|_| ())
    }

    // How many objects there are, and the names of the first two.
    fn names(t: &Objects) -> (usize, Option<Name>, Option<Name>) {
        let objects = t.objects();
        (
            objects.len(),
            objects.first().map(|x| x.name()),
            objects.get(1).map(|x| x.name()),
        )
    }

    // How many there are, and the first.
    fn summary(names: &[Name]) -> (usize, Option<Name>) {
        (names.len(), names.first().copied())
    }

    // The same of the fields of the first object.
    fn fields(t: &Objects) -> Option<(usize, Option<Name>)> {
        t.objects().first().map(|x| summary(x.fields()))
    }

    #[test]
    fn chain(rt: HostRuntime) -> Result<(), Fail> {
        let mut t = house(&rt, 3)?;
        let done = [
            link(&mut t, 16, 32),
            link(&mut t, 32, 48),
            release(&mut t, 32),
            release(&mut t, 48),
        ];
        assert_eq!(rt; done, [Ok(()), Ok(()), Ok(()), Ok(())]);
        t.collect(&[]);
        assert_eq!(rt; names(&t), (3, Some(Name(16)), Some(Name(32))));
        assert_eq!(rt; release(&mut t, 16), Ok(()));
        t.collect(&[Name(32)]);
        assert_eq!(rt; names(&t), (2, Some(Name(32)), Some(Name(48))));
        t.collect(&[]);
        assert_eq!(rt; names(&t), (0, None, None));
        Ok(())
    }

    #[test]
    fn tree(rt: HostRuntime) -> Result<(), Fail> {
        let mut t = house(&rt, 4)?;
        let done = [
            link(&mut t, 16, 32),
            link(&mut t, 16, 48),
            link(&mut t, 32, 64),
        ];
        assert_eq!(rt; done, [Ok(()), Ok(()), Ok(())]);
        let dropped = [
            release(&mut t, 32),
            release(&mut t, 48),
            release(&mut t, 64),
        ];
        assert_eq!(rt; dropped, [Ok(()), Ok(()), Ok(())]);
        t.collect(&[]);
        assert_eq!(rt; names(&t), (4, Some(Name(16)), Some(Name(32))));
        assert_eq!(rt; unlink(&mut t, 16, 32), Ok(()));
        t.collect(&[]);
        assert_eq!(rt; names(&t), (2, Some(Name(16)), Some(Name(48))));
        Ok(())
    }

    #[test]
    fn rings(rt: HostRuntime) -> Result<(), Fail> {
        let mut t = house(&rt, 3)?;
        let done = [
            link(&mut t, 16, 16),
            link(&mut t, 32, 48),
            link(&mut t, 48, 32),
            release(&mut t, 16),
            release(&mut t, 32),
        ];
        assert_eq!(rt; done, [Ok(()), Ok(()), Ok(()), Ok(()), Ok(())]);
        t.collect(&[]);
        assert_eq!(rt; names(&t), (2, Some(Name(32)), Some(Name(48))));
        assert_eq!(rt; release(&mut t, 48), Ok(()));
        t.collect(&[Name(48)]);
        assert_eq!(rt; names(&t), (2, Some(Name(32)), Some(Name(48))));
        t.collect(&[]);
        assert_eq!(rt; names(&t), (0, None, None));
        Ok(())
    }

    #[test]
    fn fields_in_order(rt: HostRuntime) -> Result<(), Fail> {
        let mut t = house(&rt, 3)?;
        let done = [
            link(&mut t, 16, 32),
            link(&mut t, 16, 48),
            link(&mut t, 16, 32),
            unlink(&mut t, 16, 32),
        ];
        assert_eq!(rt; done, [Ok(()), Ok(()), Ok(()), Ok(())]);
        assert_eq!(rt; fields(&t), Some((2, Some(Name(48)))));
        let refused = [
            unlink(&mut t, 16, 16),
            load(&mut t, 16, 16),
            release(&mut t, 48),
            link(&mut t, 16, 48),
            load(&mut t, 16, 48),
        ];
        assert_eq!(rt;
            refused,
            [Err(NoField), Err(NoField), Ok(()), Err(NotRoot), Ok(())]
        );
        assert!(rt; t.is_root(Name(48)));
        Ok(())
    }

    #[test]
    fn bad_names(rt: HostRuntime) -> Result<(), Fail> {
        let mut t = house(&rt, 1)?;
        let refused = [
            link(&mut t, 0, 16),
            link(&mut t, 16, 18),
            unlink(&mut t, 16, 1),
            release(&mut t, 15),
            release(&mut t, 32),
        ];
        assert_eq!(rt;
            refused,
            [
                Err(Malformed),
                Err(Malformed),
                Err(Malformed),
                Err(Malformed),
                Err(NotRoot)
            ]
        );
        let far = [
            take(&mut t, 17),
            link(&mut t, 17, 16),
            make(&mut t, 0),
            make(&mut t, 1),
            make(&mut t, 268435456),
        ];
        assert_eq!(rt;
            far,
            [
                Ok(()),
                Err(NotRoot),
                Err(Malformed),
                Err(OutOfNumbers),
                Err(OutOfNumbers)
            ]
        );
        assert_eq!(rt; names(&t), (1, Some(Name(16)), None));
        assert_eq!(rt; summary(t.roots()), (2, Some(Name(16))));
        Ok(())
    }

    #[test]
    fn full_roots(rt: HostRuntime) -> Result<(), Fail> {
        let mut t = house(&rt, 256)?;
        let refused = [
            make(&mut t, 257),
            make(&mut t, 0),
            t.root(Name(33)),
            t.root(Name(16)),
            take(&mut t, 16),
        ];
        assert_eq!(rt;
            refused,
            [
                Err(NoRoom),
                Err(Malformed),
                Err(NoRoom),
                Ok(()),
                Err(NoRoom)
            ]
        );
        let done = [
            link(&mut t, 16, 32),
            load(&mut t, 16, 32),
            release(&mut t, 32),
            take(&mut t, 33),
            load(&mut t, 16, 32),
        ];
        assert_eq!(rt; done, [Ok(()), Ok(()), Ok(()), Ok(()), Err(NoRoom)]);
        assert_eq!(rt; summary(t.roots()), (256, Some(Name(16))));
        Ok(())
    }

    #[test]
    fn full_tables(rt: HostRuntime) -> Result<(), Fail> {
        let mut t = house(&rt, 9)?;
        for p in 2..10u32 {
            assert_eq!(rt; link(&mut t, 16, 16 * p), Ok(()));
        }
        for k in 10..1025u32 {
            assert_eq!(rt; make(&mut t, u64::from(k)), Ok(()));
            assert_eq!(rt; release(&mut t, 16 * k), Ok(()));
        }
        assert_eq!(rt;
            [make(&mut t, 1025), link(&mut t, 16, 16)],
            [Err(NoRoom), Err(NoRoom)]
        );
        t.collect(&[Name(16384)]);
        assert_eq!(rt; names(&t), (10, Some(Name(16)), Some(Name(32))));
        assert!(rt; t.is_present(Name(16384)));
        Ok(())
    }

    #[test]
    fn far_references(rt: HostRuntime) -> Result<(), Fail> {
        let mut t = house(&rt, 2)?;
        let done = [
            take(&mut t, 49),
            take(&mut t, 33),
            link(&mut t, 16, 49),
            link(&mut t, 32, 33),
        ];
        assert_eq!(rt; done, [Ok(()), Ok(()), Ok(()), Ok(())]);
        let dropped = [
            release(&mut t, 49),
            release(&mut t, 33),
            release(&mut t, 32),
        ];
        assert_eq!(rt; dropped, [Ok(()), Ok(()), Ok(())]);
        let all = t.references_of(rt.alloc(), House(1))?;
        assert_eq!(rt; summary(&all), (2, Some(Name(33))));
        let used = t.in_use(rt.alloc(), &[])?;
        assert_eq!(rt; summary(&used), (1, Some(Name(49))));
        let more = t.in_use(rt.alloc(), &[Name(32)])?;
        assert_eq!(rt; summary(&more), (2, Some(Name(33))));
        Ok(())
    }

    // A copy of an object is alike, and stays as it was when the other is linked.
    #[test]
    fn copied(rt: HostRuntime) -> Result<(), Fail> {
        let mut object = Object::new(Name(16));
        object.link(Name(33));
        let copy = object.clone()?;
        let second = object;
        object.link(Name(48));
        assert_eq!(rt; (object.count(), copy.count(), second.count()), (2, 1, 1));
        assert!(rt; copy.name() == Name(16) && copy.fields() == [Name(33)].as_slice());
        Ok(())
    }
}
