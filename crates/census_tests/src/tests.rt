use census::{Marked, Mood, Standing, is_asker};
use std::test::Fail;
use tables::{Which, all_stand};
use wire::{Census, House, Message, Name, Refusal, RoundNumber};

// The number of a refusal, 0 where there is none.
fn refused(answer: Result<(), Refusal>) -> u8 {
    match answer {
        Ok(()) => 0,
        Err(refusal) => refusal.number(),
    }
}

// Whether house 3 has told all these.
fn has_told(part: &Standing, in_use: &[Name]) -> bool {
    all_stand(part.told(), in_use, Which::NotOf(House(3)))
}

fn mood(part: &Standing, in_use: &[Name]) -> Mood {
    part.mood(has_told(part, in_use))
}

// What house 3 says to a round of census 1: whether it is calm, and its tally.
fn asked(part: Standing, round: u32, in_use: &[Name]) -> (Standing, Option<(bool, u32)>) {
    let told = has_told(&part, in_use);
    let (part, answer) = part.reply(House(3), Census(1), RoundNumber(round), told);
    match answer {
        Ok(
            Message::Reply {
                census: Census(1),
                number: _,
                from: House(3),
                calm,
                tally,
            },
        ) => (part, Some((calm, tally.0))),
        _ => (part, None),
    }
}

#[test]
fn joins_only_upward(rt: HostRuntime) {
    let (part, up) = Standing::new(rt.alloc()).join(Census(2));
    assert_eq!(rt; refused(up), 0);
    let (part, same) = part.join(Census(2));
    assert_eq!(rt; refused(same), 10);
    let (part, down) = part.join(Census(1));
    assert_eq!(rt; refused(down), 10);
    assert_eq!(rt; part.census().0, 2);
}

#[test]
fn tells_until_answered(rt: HostRuntime) -> Result<(), Fail> {
    let (part, due) = Standing::new(rt.alloc()).tell(&[Name(49), Name(33)]);
    let due = due?;
    assert!(rt; due.len() == 2);
    assert_eq!(rt; (due[0].0, due[1].0), (33, 49));
    let (part, answer) = part.answered(Census(0), Name(33));
    assert_eq!(rt; refused(answer), 0);
    // 49 is in use no longer, but its telling may have been lost
    let (part, due) = part.tell(&[Name(33)]);
    let due = due?;
    assert!(rt; due.len() == 1);
    assert_eq!(rt; due[0].0, 49);
    assert!(rt; !mood(&part, &[]).is_calm());
    let (part, answer) = part.answered(Census(0), Name(49));
    assert_eq!(rt; refused(answer), 0);
    assert!(rt; mood(&part, &[Name(33)]).is_calm() && !mood(&part, &[Name(65)]).is_calm());
    Ok(())
}

#[test]
fn refuses_other_censuses(rt: HostRuntime) -> Result<(), Fail> {
    let (part, due) = Standing::new(rt.alloc()).tell(&[Name(33)]);
    assert_eq!(rt; due?.len(), 1);
    let (part, answer) = part.answered(Census(1), Name(33));
    assert_eq!(rt; refused(answer), 8);
    assert!(rt; !mood(&part, &[]).is_calm());
    let (part, reply) = part.reply(House(3), Census(1), RoundNumber(1), true);
    match reply {
        Ok(_) => assert!(rt; false),
        Err(refusal) => assert_eq!(rt; refusal.number(), 8),
    }
    let (part, _joined) = part.join(Census(1));
    assert!(rt; mood(&part, &[]).is_calm());
    Ok(())
}

#[test]
fn stirred_house_says_no_to_round_two(rt: HostRuntime) {
    let (part, _joined) = Standing::new(rt.alloc()).join(Census(1));
    // taken before round 1 was answered: not stirred
    let (part, first) = asked(part.taken(), 1, &[]);
    assert_eq!(rt; first, Some((true, 0)));
    let (part, second) = asked(part, 2, &[]);
    assert_eq!(rt; second, Some((true, 0)));
    let (part, second) = asked(part.taken(), 2, &[]);
    assert_eq!(rt; second, Some((false, 0)));
    let (part, third) = asked(part, 3, &[]);
    assert_eq!(rt; third, Some((true, 0)));
    let (_part, third) = asked(part, 3, &[Name(33)]);
    assert_eq!(rt; third, Some((false, 0)));
}

#[test]
fn counts_a_mark_once(rt: HostRuntime) {
    let (part, _joined) = Standing::new(rt.alloc()).join(Census(1));
    let part = part.counted(Marked::New).counted(Marked::Again);
    let part = part.counted(Marked::NoLine).counted(Marked::New);
    let (_part, first) = asked(part, 1, &[]);
    assert_eq!(rt; first, Some((true, 2)));
}

#[test]
fn house_0_asks(rt: HostRuntime) {
    assert!(rt; is_asker(House(0)) && !is_asker(House(1)));
}
