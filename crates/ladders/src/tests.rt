use crate::house::House;
use crate::ladder::Ladder;
use crate::ladder_rows::LadderRows;
use crate::rank::Rank;
use crate::table::rows;
use std::process::Abort;

#[test]
fn rank_ladders_are_clamped(rt: HostRuntime) {
    for (asked, posts) in [(0, 1), (3, 3), (9, 8)] {
        let ladder = Rank::new(asked);
        assert_eq!(rt; ladder.count(), posts);
        for p in 0..10 {
            for q in 0..10 {
                assert_eq!(rt; ladder.at_least(p, q), p < posts && q <= p);
            }
        }
    }
}

#[test]
fn house_table(rt: HostRuntime) {
    let table: [&[usize]; 8] = [
        &[0],
        &[0, 1],
        &[0, 2],
        &[0, 3],
        &[0, 2, 3, 4],
        &[0, 1, 5],
        &[0, 2, 3, 4, 6],
        &[0, 1, 2, 3, 4, 5, 6, 7],
    ];
    assert_eq!(rt; House.count(), 8);
    for (p, posts) in table.iter().enumerate() {
        for q in 0..10 {
            assert_eq!(rt; House.at_least(p, q), posts.contains(&q));
        }
    }
    assert!(rt; !House.at_least(8, 0) && !House.at_least(9, 9));
}

#[test]
fn rows_of_both(rt: HostRuntime) {
    assert_eq!(rt; rows(&House), [1, 3, 5, 9, 29, 35, 93, 255]);
    assert_eq!(rt; rows(&Rank::new(0)), [1, 0, 0, 0, 0, 0, 0, 0]);
    assert_eq!(rt; rows(&Rank::new(3)), [1, 3, 7, 0, 0, 0, 0, 0]);
    assert_eq!(rt; rows(&Rank::new(9)), [1, 3, 7, 15, 31, 63, 127, 255]);
}

fn same_answers<L: Ladder>(rt: &impl Abort, ladder: &L) {
    let copy = LadderRows::of(ladder);
    assert_eq!(rt; copy.count(), ladder.count());
    for p in 0..10 {
        for q in 0..10 {
            assert_eq!(rt; copy.at_least(p, q), ladder.at_least(p, q));
        }
    }
}

#[test]
fn rows_answer_as_the_ladder(rt: HostRuntime) {
    same_answers(&rt, &House);
    same_answers(&rt, &Rank::new(1));
    same_answers(&rt, &Rank::new(5));
}
