use crate::chart::Chart;
use crate::contrary::Contrary;
use crate::policy::Policy;
use crate::rule_list::RuleList;
use ladders::{House, Ladder, Rank};
use rules::{Effect, Letter, Model, Rule};
use std::process::Abort;

// A permit rule for every post.
fn permit(needed: u16, barred: u16) -> Rule {
    Rule {
        effect: Effect::Permit,
        needed,
        barred,
        floor: 0,
        barred_posts: 0,
    }
}

fn deny(needed: u16) -> Rule {
    Rule {
        effect: Effect::Deny,
        ..permit(needed, 0)
    }
}

// The policy has so many requests, and permits just those of a set.
fn permits<P: Policy>(rt: &impl Abort, policy: &P, requests: usize, set: &[usize]) {
    assert_eq!(rt; policy.requests(), requests);
    for request in 0..requests {
        let effect = if set.contains(&request) {
            Effect::Permit
        } else {
            Effect::Deny
        };
        assert_eq!(rt; policy.decide(request), Some(effect));
    }
    assert_eq!(rt; policy.decide(requests), None);
    assert_eq!(rt; policy.decide(usize::MAX), None);
}

// The same of a list.
fn list_permits<L: Ladder>(
    rt: &impl Abort,
    letter: Letter,
    conditions: u8,
    ladder: &L,
    rules: &[Rule],
    requests: usize,
    set: &[usize],
) {
    permits(
        rt,
        &RuleList::new(letter, conditions, ladder, rules),
        requests,
        set,
    );
}

#[test]
fn models_by_the_effects_that_apply(rt: HostRuntime) {
    let rules = [permit(1, 0), deny(2)];
    let table: [(Model, &[usize]); 4] = [
        (Model::A, &[1]),
        (Model::B, &[0, 1, 3]),
        (Model::C, &[1, 3]),
        (Model::D, &[0, 1]),
    ];
    for (model, set) in table {
        list_permits(&rt, Letter::Model(model), 2, &Rank::new(1), &rules, 4, set);
    }
}

#[test]
fn rules_that_do_not_count(rt: HostRuntime) {
    let one = Rank::new(1);
    let guarded = [deny(0), permit(1, 0), deny(2)];
    list_permits(&rt, Letter::Guarded, 2, &one, &guarded, 4, &[1, 3]);
    let barring = [
        permit(1, 0),
        permit(2, 1),
        permit(2, 1 << 15),
        Rule {
            barred_posts: 1 << 7,
            ..deny(0)
        },
    ];
    list_permits(&rt, Letter::Model(Model::A), 2, &one, &barring, 4, &[1, 3]);
    list_permits(&rt, Letter::Guarded, 2, &one, &barring, 4, &[1, 2, 3]);
}

#[test]
fn lists_on_ladders(rt: HostRuntime) {
    let rules = [Rule {
        floor: 3,
        barred_posts: 1 << 6,
        ..permit(0, 0)
    }];
    list_permits(&rt, Letter::Guarded, 0, &House, &rules, 8, &[3, 4]);
    list_permits(&rt, Letter::Guarded, 0, &Rank::new(5), &rules, 5, &[3, 4]);
    list_permits(&rt, Letter::Guarded, 0, &Rank::new(2), &rules, 2, &[]);
    list_permits(&rt, Letter::Guarded, 10, &House, &rules, 0, &[]);
}

#[test]
fn worked_lists(rt: HostRuntime) {
    let one = Rank::new(1);
    let guarded = [permit(1, 4), permit(2, 4)];
    list_permits(&rt, Letter::Guarded, 3, &one, &guarded, 8, &[1, 2, 3]);
    let converted = [permit(1, 0), permit(2, 0), deny(4)];
    list_permits(
        &rt,
        Letter::Model(Model::A),
        3,
        &one,
        &converted,
        8,
        &[1, 2, 3],
    );
    let other = [permit(2, 0), permit(1, 4)];
    list_permits(&rt, Letter::Guarded, 3, &one, &other, 8, &[1, 2, 3, 6, 7]);
}

#[test]
fn charts_and_contraries(rt: HostRuntime) {
    permits(&rt, &Chart { bytes: &[] }, 0, &[]);
    let chart = Chart {
        bytes: &[0, 1, 255, 0],
    };
    permits(&rt, &chart, 4, &[1, 2]);
    permits(&rt, &Contrary { beneath: &chart }, 4, &[0, 3]);
    permits(
        &rt,
        &Contrary {
            beneath: Contrary { beneath: chart },
        },
        4,
        &[1, 2],
    );
    let long = Chart { bytes: &[1; 5000] };
    assert_eq!(rt; long.requests(), 4096);
    assert_eq!(rt; long.decide(4095), Some(Effect::Permit));
    assert_eq!(rt; long.decide(4096), None);
}
