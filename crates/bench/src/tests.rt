// Calls of a sheet between the terms of its running table, and a list of calls, over integers.
use super::*;
use std::test::Fail;
use uses::{Answer, Division, Reply, run};

// The calls that need at most one working area leave the running table as it is.
#[test]
fn a_running_table_outlives_a_sum(rt: HostRuntime) -> Result<(), Fail> {
    let mut lent = [Row::<Integer>::blank(); 48];
    let mut sheet = Sheet::open(&mut lent, format_of(8)?);
    let x = sheet.format().unit(0)?;
    sheet.begin();
    sheet.enter(x, Integer { figure: 5 })?;
    sheet.variable(0, 0)?;
    sheet.constant(1, 3, 0)?;
    sheet.add(2, 0, 1)?;
    sheet.subtract(3, 2, 1)?;
    sheet.copy(1, 3)?;
    sheet.differentiate(5, 2, 0)?;
    sheet.truncate(6, 2, 1, 0)?;
    assert!(rt; sheet.equal(0, 1)?);
    assert_eq!(rt; sheet.rows(5)?.len(), 1);
    assert_eq!(rt; sheet.rows(6)?.len(), 1);
    sheet.enter(0, Integer { figure: 7 })?;
    sheet.enter(x, Integer { figure: 1 })?;
    sheet.store(4)?;
    assert_eq!(rt; sheet.rows(4)?.len(), 2);
    let first = sheet.leading(4)?.map(|row| row.coefficient.figure);
    assert_eq!(rt; first, Some(6));
    Ok(())
}

// Given up, it is in no place.
#[test]
fn a_running_table_is_given_up(rt: HostRuntime) -> Result<(), Fail> {
    let mut lent = [Row::<Integer>::blank(); 48];
    let mut sheet = Sheet::open(&mut lent, format_of(8)?);
    sheet.begin();
    sheet.enter(0, Integer { figure: 5 })?;
    sheet.abandon();
    sheet.store(0)?;
    assert_eq!(rt; sheet.rows(0)?.len(), 0);
    Ok(())
}

// A list has an answer for each call, in order; a refusal stops none of those after it. 2X + 3 is read, and all that follow are made of it.
#[test]
fn a_list_of_calls_is_performed(rt: HostRuntime) -> Result<(), Fail> {
    let mut lent = [Row::<Integer>::blank(); 48];
    let mut sheet = Sheet::open(&mut lent, format_of(8)?);
    let calls: [Call<'_, Division>; 10] = [
        Call::Read(0, b"2,1,,,3,,,,0"),
        Call::Add(8, 0, 0),
        Call::Negate(1, 0),
        Call::Subtract(2, 0, 1),
        Call::Multiply(3, 0, 2),
        Call::Divide(4, 3, 0, Division),
        Call::Differentiate(5, 3, 0),
        Call::Truncate(6, 3, 1, 1),
        Call::MultiplyTruncate(7, 0, 2, 1, 1),
        Call::Substitute(1, 0, 2, 0),
    ];
    let mut answers: [Answer<Integer>; 10] = [Ok(Reply::Done); 10];
    let mut output = [0u8; 8];
    assert_eq!(rt; run(&mut sheet, &calls, &mut answers, &mut output), 10);
    let refused = answers[1].err().map(|fault| fault.refusal.number());
    assert_eq!(rt; refused, Some(5));
    assert_eq!(rt; answers.iter().filter(|answer| answer.is_ok()).count(), 9);
    assert!(rt; sheet.equal(4, 2)?);
    assert!(rt; sheet.equal(6, 7)?);
    assert_eq!(rt;
        sheet.leading(5)?.map(|row| row.coefficient.figure),
        Some(16)
    );
    assert_eq!(rt;
        sheet.leading(1)?.map(|row| row.coefficient.figure),
        Some(8)
    );
    Ok(())
}
