use crate::actors::note_by_actors;
use crate::held::draw_under_turn;
use crate::opened::opened_number;
use crate::pair::note_both;
use crate::parting::{left_when_parted, number_once_told};
use crate::readings::readings_of;
use crate::rising::readings_rise;
use enq_base::Readings;
use gauges::Gauges;
use number_stock::Stock;
use std::test::*;

// What two threads note, and whether the first pass is joined into the second.
const PAIRS: [(u64, u64, bool); 3] = [(3, 4, false), (3, 4, true), (7, 7, true)];

#[test]
fn both_numbers_stand_there_once(rt: HostRuntime) {
    for (a, b, second_first) in PAIRS {
        for _ in 0..50 {
            let Some(notes) = note_both(&rt, rt.alloc(), a, b, second_first) else {
                panic!(rt; "no memory")
            };
            let numbers = notes.numbers.as_slice();
            assert!(rt;
                numbers == [a, b].as_slice() || numbers == [b, a].as_slice(),
                "{a} {b}"
            );
        }
    }
}

#[test]
fn each_of_a_list_of_actors_notes_once(rt: HostRuntime) {
    for count in [0, 1, 2, 9] {
        let numbers = &[10, 11, 12, 13, 14, 15, 16, 17, 18][..count];
        let Some(notes) = note_by_actors(&rt, rt.alloc(), numbers) else {
            panic!(rt; "no memory")
        };
        assert_eq!(rt; notes.numbers.len(), count, "of {count}");
        for number in numbers {
            assert!(rt; notes.numbers.as_slice().contains(number), "{number}");
        }
    }
}

#[test]
fn a_dry_draw_is_answered_once_the_limit_is_raised(rt: HostRuntime) {
    let Ok((stock, mut seat)) = Stock::new(rt.alloc(), 1, 0, 3) else {
        panic!(rt; "no memory")
    };
    let Err(dry) = stock.draw(&mut seat) else {
        panic!(rt; "drawn above the limit")
    };
    assert!(rt; dry.ticket() == 0);
    stock.raise(&mut seat, 2);
    assert!(rt; stock.again(&mut seat, dry).is_ok_and(|d| d.number() == 1));
    assert!(rt; stock.draw(&mut seat).is_ok_and(|d| d.number() == 2));
    assert!(rt; stock.draw(&mut seat).is_err_and(|d| d.ticket() == 2));
    assert!(rt; seat.left() == 0);
}

// How many draws a stock has, how many of them the second seat gets, how many each of the two uses, and what they have
// left then.
const SHARES: [(u32, u32, (u32, u32), (u32, u32)); 5] = [
    (9, 4, (2, 3), (3, 1)),
    (9, 9, (0, 9), (0, 0)),
    (5, 0, (5, 0), (0, 0)),
    (2, 1, (0, 0), (1, 1)),
    (12, 6, (6, 5), (0, 1)),
];

#[test]
fn seats_that_were_joined_are_parted_again(rt: HostRuntime) {
    for (draws, given, used, left) in SHARES {
        assert!(rt;
            left_when_parted(rt.alloc(), draws, given, used) == Some(left),
            "{draws}"
        );
    }
}

#[test]
fn a_seat_that_is_told_of_the_limit_is_answered(rt: HostRuntime) {
    assert!(rt; number_once_told(rt.alloc(), 7) == Some(7));
}

fn are_whole(readings: &[Readings]) -> bool {
    let mut last = 0;
    for now in readings {
        let past = now.past;
        if past < last
            || now.waiting.checked_sub(past) != Some(1)
            || now.posted.checked_sub(past) != Some(2)
            || now.locks.checked_sub(past) != Some(3)
        {
            return false;
        }
        last = past;
    }
    true
}

#[test]
fn numbers_are_drawn_while_another_holds_the_turn(rt: HostRuntime) {
    let Some(held) = draw_under_turn(&rt, rt.alloc(), 7, 100) else {
        panic!(rt; "no memory, or a draw waited for the turn")
    };
    assert!(rt; held.first.len() == 100 && held.second.len() == 100);
    for number in 7..207 {
        let first = held.first.as_slice().contains(&number);
        let second = held.second.as_slice().contains(&number);
        assert!(rt; first != second, "{number}");
    }
    assert!(rt; held.first_seen.len() == 100 && held.second_seen.len() == 100);
    assert!(rt; are_whole(held.first_seen.as_slice()));
    assert!(rt; are_whole(held.second_seen.as_slice()));
}

#[test]
fn what_the_state_was_opened_with_comes_out_again(rt: HostRuntime) {
    assert!(rt; opened_number(&rt, rt.alloc(), 5, 6) == Some(5));
}

#[test]
fn a_look_shows_what_was_published_last(rt: HostRuntime) {
    let Ok((gauges, mut writer, mut pass)) = Gauges::new(rt.alloc(), readings_of(0)) else {
        panic!(rt; "no memory")
    };
    assert!(rt; gauges.look(&mut pass) == readings_of(0));
    gauges.publish(&mut writer, &readings_of(4));
    assert!(rt; gauges.look(&mut pass) == readings_of(4));
    let (mut one, mut two) = gauges.split(pass);
    gauges.publish(&mut writer, &readings_of(9));
    assert!(rt; gauges.look(&mut two) == readings_of(9));
    assert!(rt; gauges.look(&mut one) == readings_of(9));
    gauges.join(&mut writer, one);
    gauges.join(&mut writer, two);
}

#[test]
fn a_reading_rises_while_another_publishes(rt: HostRuntime) {
    assert!(rt; readings_rise(&rt, rt.alloc()) == Some(true));
}
