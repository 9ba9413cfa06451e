// More houses than a rehearsal has.

#![tactic(auto)]

#[cfg(test)]
mod tests {
    use net::Net;
    use std::test::Fail;
    use wire::{Call, House, Name};

    // House 15 makes two objects and lets one go.
    #[test]
    fn sixteen_houses_are_settled(rt: HostRuntime) -> Result<(), Fail> {
        let mut net = Net::new(rt.alloc(), 16)?;
        net.call(House(15), Call::Make { number: 1 })?;
        net.call(House(15), Call::Make { number: 2 })?;
        net.call(House(15), Call::Drop { object: Name(31) })?;
        net.settle()?;
        // a word of each house to each other, two rounds with sixteen answers each, and the end of the census
        assert_eq!(rt; net.messages().len(), 240 + 34 + 1);
        match net.houses() {
            [.., last] => match last.objects() {
                [object] => assert!(rt; object.name() == Name(47)),
                _ => assert!(rt; false),
            },
            [] => assert!(rt; false),
        }
        Ok(())
    }
}
