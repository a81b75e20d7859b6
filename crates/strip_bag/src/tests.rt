use crate::{Bag, Row, Value};
use std::alloc::{AllocError, Global};
use std::process::Abort;
use std::test::Fail;

fn row(alloc: Global, number: i128) -> Result<Row, AllocError> {
    let mut values = Vec::new(alloc);
    values.push(Value::Int(number))?;
    Ok(Row::of(values))
}

// Adds, where the new count is a small one.
fn add(rt: &impl Abort, bag: &mut Bag, row: &Row, times: i128) -> Result<(), AllocError> {
    let count = bag.count(row);
    assert!(rt; -1000 < count && count < 1000);
    assert!(rt; -1000 < times && times < 1000);
    bag.add(row, times)
}

#[test]
fn counts_add_up_row_by_row(rt: HostRuntime) -> Result<(), Fail> {
    let alloc = rt.alloc();
    let (one, two, three) = (row(alloc, 1)?, row(alloc, 2)?, row(alloc, 3)?);
    let mut bag = Bag::new(alloc);
    // the row, how often it is added, and the counts of 1, 2 and 3 then
    let steps = [
        (2, 3, (0, 3, 0)),
        (1, -4, (-4, 3, 0)),
        (3, 1, (-4, 3, 1)),
        (2, -3, (-4, 0, 1)),
        (2, 0, (-4, 0, 1)),
        (1, 5, (1, 0, 1)),
        (3, -1, (1, 0, 0)),
        (2, 7, (1, 7, 0)),
    ];
    for (number, times, counts) in steps {
        add(&rt, &mut bag, &row(alloc, number)?, times)?;
        assert_eq!(rt;
            (bag.count(&one), bag.count(&two), bag.count(&three)),
            counts,
            "after {times} times {number}"
        );
    }
    Ok(())
}

// The rows of a group and a number that the next test counts. Numbers above 2 pass its filter.
const PAIRS: [(i128, i128); 4] = [(1, 5), (1, 6), (2, 5), (2, 1)];

fn pair(alloc: Global, group: i128, number: i128) -> Result<Row, AllocError> {
    let mut values = Vec::new(alloc);
    values.push(Value::Int(group))?;
    values.push(Value::Int(number))?;
    Ok(Row::of(values))
}

fn count_of(alloc: Global, bag: &Bag, at: (i128, i128)) -> Result<i128, AllocError> {
    let row = pair(alloc, at.0, at.1)?;
    Ok(bag.count(&row))
}

// Adds to a bag of such rows.
fn add_all(
    rt: &impl Abort,
    alloc: Global,
    bag: &mut Bag,
    counts: [i128; 4],
) -> Result<(), AllocError> {
    for (at, count) in PAIRS.into_iter().zip(counts) {
        let row = pair(alloc, at.0, at.1)?;
        add(rt, bag, &row, count)?;
    }
    Ok(())
}

// Adds the groups of the rows that pass.
fn select_into(
    rt: &impl Abort,
    alloc: Global,
    bag: &Bag,
    selected: &mut Bag,
) -> Result<(), AllocError> {
    for at in PAIRS {
        if at.1 > 2 {
            let count = count_of(alloc, bag, at)?;
            add(rt, selected, &row(alloc, at.0)?, count)?;
        }
    }
    Ok(())
}

// The sum of the numbers of a group over the rows that pass.
fn total(alloc: Global, bag: &Bag, group: i128) -> Result<i128, AllocError> {
    let mut sum: i128 = 0;
    for at in PAIRS {
        if at.0 == group && at.1 > 2 {
            let count = count_of(alloc, bag, at)?;
            sum = sum.wrapping_add(count.wrapping_mul(at.1));
        }
    }
    Ok(sum)
}

fn bag_with(rt: &impl Abort, alloc: Global, counts: [i128; 4]) -> Result<Bag, AllocError> {
    let mut bag = Bag::new(alloc);
    add_all(rt, alloc, &mut bag, counts)?;
    Ok(bag)
}

// What is asked of a bag: the counts of its rows, those of the groups selected from it, and the totals of the groups.
#[derive(Clone, Copy, Debug)]
enum Asked {
    Counts,
    Selected,
    Totals,
}

fn counts(alloc: Global, bag: &Bag) -> Result<[i128; 4], AllocError> {
    let [one, two, three, four] = PAIRS;
    Ok([
        count_of(alloc, bag, one)?,
        count_of(alloc, bag, two)?,
        count_of(alloc, bag, three)?,
        count_of(alloc, bag, four)?,
    ])
}

fn selected(rt: &impl Abort, alloc: Global, bag: &Bag) -> Result<[i128; 4], AllocError> {
    let mut selected = Bag::new(alloc);
    select_into(rt, alloc, bag, &mut selected)?;
    let (one, two) = (row(alloc, 1)?, row(alloc, 2)?);
    Ok([selected.count(&one), selected.count(&two), 0, 0])
}

fn answer(
    rt: &impl Abort,
    alloc: Global,
    asked: Asked,
    bag: &Bag,
) -> Result<[i128; 4], AllocError> {
    match asked {
        Asked::Counts => counts(alloc, bag),
        Asked::Selected => selected(rt, alloc, bag),
        Asked::Totals => Ok([total(alloc, bag, 1)?, total(alloc, bag, 2)?, 0, 0]),
    }
}

fn plus(one: [i128; 4], two: [i128; 4]) -> [i128; 4] {
    let ([a, b, c, d], [e, f, g, h]) = (one, two);
    [
        a.wrapping_add(e),
        b.wrapping_add(f),
        c.wrapping_add(g),
        d.wrapping_add(h),
    ]
}

fn negative(counts: [i128; 4]) -> [i128; 4] {
    counts.map(i128::wrapping_neg)
}

// The sum of two bags is asked, or each, and the answers added.
fn is_linear(
    rt: &impl Abort,
    alloc: Global,
    asked: Asked,
    one: [i128; 4],
    two: [i128; 4],
) -> Result<(), AllocError> {
    let mut sum = bag_with(rt, alloc, one)?;
    add_all(rt, alloc, &mut sum, two)?;
    let first = answer(rt, alloc, asked, &bag_with(rt, alloc, one)?)?;
    let second = answer(rt, alloc, asked, &bag_with(rt, alloc, two)?)?;
    assert_eq!(rt;
        answer(rt, alloc, asked, &sum)?,
        plus(first, second),
        "{asked:?}"
    );
    let mut difference = bag_with(rt, alloc, one)?;
    add_all(rt, alloc, &mut difference, negative(two))?;
    assert_eq!(rt;
        answer(rt, alloc, asked, &difference)?,
        plus(first, negative(second)),
        "{asked:?}"
    );
    Ok(())
}

#[test]
fn answers_are_linear(rt: HostRuntime) -> Result<(), Fail> {
    let alloc = rt.alloc();
    let cases = [
        ([1, 0, 2, 1], [-1, 3, 0, 4]),
        ([-3, 2, 1, 0], [3, -2, -1, 5]),
        ([0, 0, 0, 7], [0, 0, 0, -2]),
        ([0, 0, 0, 0], [-2, 1, 4, 3]),
    ];
    for (one, two) in cases {
        for asked in [Asked::Counts, Asked::Selected, Asked::Totals] {
            is_linear(&rt, alloc, asked, one, two)?;
        }
    }
    Ok(())
}

#[test]
fn answers_are_those_worked_out_by_hand(rt: HostRuntime) -> Result<(), Fail> {
    let alloc = rt.alloc();
    let cases = [
        ([0, 3, 2, 5], [3, 2, 0, 0], [18, 10, 0, 0]),
        ([-2, 3, -2, 3], [1, -2, 0, 0], [8, -10, 0, 0]),
        ([0, 0, 0, 5], [0, 0, 0, 0], [0, 0, 0, 0]),
        ([-2, 1, 4, 3], [-1, 4, 0, 0], [-4, 20, 0, 0]),
    ];
    for (counted, groups, totals) in cases {
        let bag = bag_with(&rt, alloc, counted)?;
        assert_eq!(rt; counts(alloc, &bag)?, counted);
        assert_eq!(rt; selected(&rt, alloc, &bag)?, groups);
        assert_eq!(rt; answer(&rt, alloc, Asked::Totals, &bag)?, totals);
    }
    Ok(())
}

// Adds each row of a list once.
fn add_list(
    rt: &impl Abort,
    alloc: Global,
    bag: &mut Bag,
    list: [(i128, i128); 3],
) -> Result<(), AllocError> {
    for at in list {
        add(rt, bag, &pair(alloc, at.0, at.1)?, 1)?;
    }
    Ok(())
}

#[test]
fn lists_count_one_after_the_other_in_any_order(rt: HostRuntime) -> Result<(), Fail> {
    let alloc = rt.alloc();
    let [a, b, c, d] = PAIRS;
    let (mut one, mut two) = (Bag::new(alloc), Bag::new(alloc));
    add_list(&rt, alloc, &mut one, [c, a, c])?;
    add_list(&rt, alloc, &mut two, [d, c, b])?;
    let (mut both, mut turned) = (Bag::new(alloc), Bag::new(alloc));
    add_list(&rt, alloc, &mut both, [c, a, c])?;
    add_list(&rt, alloc, &mut both, [d, c, b])?;
    add_list(&rt, alloc, &mut turned, [b, c, d])?;
    add_list(&rt, alloc, &mut turned, [c, a, c])?;
    assert_eq!(rt; counts(alloc, &both)?, [1, 1, 3, 1]);
    assert_eq!(rt;
        counts(alloc, &both)?,
        plus(counts(alloc, &one)?, counts(alloc, &two)?)
    );
    assert_eq!(rt; counts(alloc, &turned)?, counts(alloc, &both)?);
    assert_eq!(rt; total(alloc, &turned, 1)?, total(alloc, &both, 1)?);
    Ok(())
}
