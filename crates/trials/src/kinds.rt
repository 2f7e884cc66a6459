// What a kind answers, written out.
use refusals::Refusal;
use rings::{Domain, Figures, Ring};
use std::io;

// Prints the figures of an answer, or the number of its refusal.
fn show<K: Ring>(rt: &HostRuntime, name: &str, answer: Result<K, Refusal>) -> io::Result<()> {
    match answer {
        Ok(value) => println!(rt; "{name} {}", Figures(value)),
        Err(refusal) => println!(rt; "{name} refused {refusal}"),
    }
}

// What one value answers by itself.
fn alone<K: Ring>(rt: &HostRuntime, a: K) -> io::Result<()> {
    println!(rt; "zero {}", a.is_zero())?;
    show(rt, "negative", Ok(a.negative()))?;
    show(rt, "times 0", a.multiple(0))?;
    show(rt, "times 1", a.multiple(1))?;
    show(rt, "times 3", a.multiple(3))?;
    show(rt, "times 257", a.multiple(257))?;
    show(rt, "times 65535", a.multiple(65535))
}

// What it answers with another.
fn together<K: Ring>(rt: &HostRuntime, a: K, b: K) -> io::Result<()> {
    println!(rt; "equal {}", a.equals(b))?;
    show(rt, "plus", a.plus(b))?;
    show(rt, "times", a.times(b))
}

// What `write` writes of each value that the figures make, after a line that names the figures.
fn each<K: Ring, F: Fn(K) -> io::Result<()>>(
    rt: &HostRuntime,
    name: &str,
    list: &[(i64, i64)],
    write: F,
) -> io::Result<()>
    requires { F.IsAlwaysCallable write }
{
    for &(first, second) in list {
        if let Ok(value) = K::from_figures(first, second) {
            println!(rt; "{name} {first} {second}")?;
            write(value)?;
        }
    }
    Ok(())
}

// Every operation but division on the values that the figures make.
pub(crate) fn operations<K: Ring>(rt: &HostRuntime, list: &[(i64, i64)]) -> io::Result<()> {
    show(rt, "zero", Ok(K::zero()))?;
    show(rt, "one", Ok(K::one()))?;
    for &(first, second) in list {
        println!(rt; "figures {first} {second}")?;
        let made: Result<K, Refusal> = K::from_figures(first, second);
        show(rt, "made", made)?;
        if let Ok(a) = made {
            alone(rt, a)?;
            each(rt, "with", list, |b| together(rt, a, b))?;
        }
    }
    Ok(())
}

// The quotients of the values that the figures make, each by each.
pub(crate) fn divisions<K: Domain>(rt: &HostRuntime, list: &[(i64, i64)]) -> io::Result<()> {
    each(rt, "divide", list, |a: K| {
        each(rt, "by", list, |b| show(rt, "quotient", a.divide(b)))
    })
}
