#![tactic(auto)]
// Prints worked cases: what the library says of some requests, and what a plain search over the blocks says.
ghost use Rattle.std.specs.Prelude.{◌≤◌, length};

use classes::{ClassRefusal, Quarters, Sixteens, SizeClasses};
use std::{fmt, io};

// Requests at the edges of both plans, with counts.
const EDGES: [(u32, u32); 10] = [
    (0, 1),
    (1, 1),
    (33, 3),
    (64, 2),
    (65, 2),
    (129, 10),
    (4_096, 2),
    (4_097, 2),
    (1_048_576, 65_535),
    (1_048_577, 1),
];

// Requests with counts, for a total.
const COUNTED: [(u32, u32); 4] = [(33, 2), (5, 1), (200, 3), (48, 4)];

// A request's class and block, and what so many such requests consume: a whole block for each.
#[derive(Clone, Copy, Debug, PartialEq, Eq)]
struct Served {
    class: u32,
    block: u32,
    consumed: u64,
}

impl fmt::Display for Served {
    fn fmt<W: fmt::Write>(&self, f: &mut fmt::Formatter<W>) -> fmt::Result {
        write!(
            f,
            "class {}, block {}, consumed {}",
            self.class, self.block, self.consumed
        )
    }
}

// What is printed of a request: how it is served, or its refusal.
#[derive(Drop)]
struct Said(Result<Served, ClassRefusal>);

impl fmt::Display for Said {
    fn fmt<W: fmt::Write>(&self, f: &mut fmt::Formatter<W>) -> fmt::Result {
        match self.0 {
            Ok(served) => write!(f, "{served}"),
            Err(refusal) => write!(f, "{refusal}"),
        }
    }
}

// The lowest class whose block is at least the request, by looking at one block after the other.
fn search<P: SizeClasses>(plan: &P, bytes: u32) -> Result<u32, ClassRefusal> {
    if bytes == 0 {
        return Err(ClassRefusal::ZeroRequest);
    }
    (0..plan.classes())
        .find(|class| plan.block_size(*class).is_ok_and(|block| block >= bytes))
        .ok_or(ClassRefusal::AboveLargest)
}

fn serve<P: SizeClasses>(
    plan: &P,
    found: Result<u32, ClassRefusal>,
    count: u32,
) -> Result<Served, ClassRefusal> {
    let class = found?;
    let block = plan.block_size(class)?;
    Ok(Served {
        class,
        block,
        consumed: u64::from(block) * u64::from(count),
    })
}

// What the counted requests consume together, each in the class that is found for it.
fn total<P: SizeClasses, F: Fn(u32) -> Result<u32, ClassRefusal>>(
    plan: &P,
    find: F,
) -> Result<u64, ClassRefusal>
    requires { F.IsAlwaysCallable find }
{
    COUNTED.iter().try_fold(0u64, |sum, (bytes, count)| {
        let served = serve(plan, find(*bytes), *count)?;
        Ok(sum.saturating_add(served.consumed))
    })
}

// A plan, its name, and what the cases are printed with.
#[derive(Drop)]
struct Cases<'a, P> {
    rt: &'a HostRuntime,
    plan: &'a P,
    name: &'a str,
}

impl<P: SizeClasses> Cases<'_, P> {
    fn print_request(&self, bytes: u32, count: u32) -> io::Result<()> {
        let name = self.name;
        let by_library = Said(serve(self.plan, self.plan.class_of(bytes), count));
        let by_search = Said(serve(self.plan, search(self.plan, bytes), count));
        println!(self.rt; "{name}: {count} x {bytes} bytes: {by_library}; by search {by_search}")
    }

    fn print_class(&self, class: u32) -> io::Result<()> {
        let name = self.name;
        match self.plan.block_size(class) {
            Ok(block) => println!(self.rt; "{name}: class {class}: block {block}"),
            Err(refusal) => println!(self.rt; "{name}: class {class}: {refusal}"),
        }
    }

    fn print_total(&self) -> io::Result<()> {
        let name = self.name;
        let by_library = total(self.plan, |bytes| self.plan.class_of(bytes));
        let by_search = total(self.plan, |bytes| search(self.plan, bytes));
        match (by_library, by_search) {
            (Ok(sum), Ok(by_search)) => println!(self.rt;
                "{name}: consumed {sum} in all; by search {by_search}"
            ),
            _ => println!(self.rt; "{name}: a request was refused"),
        }
    }

    fn print(&self) -> io::Result<()> {
        let name = self.name;
        let classes = self.plan.classes();
        println!(self.rt; "{name}: {classes} classes")?;
        for (bytes, count) in EDGES {
            self.print_request(bytes, count)?;
        }
        self.print_class(classes.saturating_sub(1))?;
        self.print_class(classes)?;
        for (bytes, count) in COUNTED {
            self.print_request(bytes, count)?;
        }
        self.print_total()
    }
}

fn main(rt: HostRuntime) -> io::Result<()> {
    let sixteens = Cases {
        rt: &rt,
        plan: &Sixteens,
        name: "sixteens",
    };
    let quarters = Cases {
        rt: &rt,
        plan: &Quarters,
        name: "quarters",
    };
    sixteens.print()?;
    quarters.print()
}

#[cfg(test)]
mod tests {
    use super::*;
    use profile::Profile;
    use std::process::Abort;
    use std::test::Fail;

    // request, class and block, by hand
    const IN_SIXTEENS: [(u32, u32, u32); 4] = [
        (1, 0, 16),
        (33, 2, 48),
        (129, 8, 144),
        (4_096, 255, 4_096),
    ];

    const IN_QUARTERS: [(u32, u32, u32); 6] = [
        (1, 0, 16),
        (33, 2, 48),
        (64, 3, 64),
        (65, 4, 80),
        (129, 8, 160),
        (1_048_576, 59, 1_048_576),
    ];

    fn same<P: SizeClasses>(rt: &impl Abort, plan: &P, bytes: u32) {
        assert_eq!(rt; plan.class_of(bytes), search(plan, bytes));
    }

    // the class, the block, and what two such requests consume
    fn are<P: SizeClasses>(rt: &impl Abort, plan: &P, cases: &[(u32, u32, u32)]) {
        for &(bytes, class, block) in cases {
            let consumed = 2 * u64::from(block);
            let served = Served {
                class,
                block,
                consumed,
            };
            assert_eq!(rt; serve(plan, plan.class_of(bytes), 2), Ok(served));
            same(rt, plan, bytes);
        }
    }

    #[test]
    fn worked_cases(rt: HostRuntime) {
        are(&rt, &Sixteens, &IN_SIXTEENS);
        are(&rt, &Quarters, &IN_QUARTERS);
    }

    #[test]
    fn totals(rt: HostRuntime) {
        assert_eq!(rt; total(&Sixteens, |bytes| Sixteens.class_of(bytes)), Ok(928));
        assert_eq!(rt; total(&Sixteens, |bytes| search(&Sixteens, bytes)), Ok(928));
        assert_eq!(rt; total(&Quarters, |bytes| Quarters.class_of(bytes)), Ok(976));
        assert_eq!(rt; total(&Quarters, |bytes| search(&Quarters, bytes)), Ok(976));
    }

    #[test]
    fn refusals(rt: HostRuntime) {
        let number = ClassRefusal::number;
        assert_eq!(rt; Sixteens.class_of(0).map_err(number), Err(11));
        assert_eq!(rt; Quarters.class_of(0).map_err(number), Err(11));
        assert_eq!(rt; Sixteens.class_of(4_097).map_err(number), Err(12));
        assert_eq!(rt; Quarters.class_of(1_048_577).map_err(number), Err(12));
        assert_eq!(rt; Quarters.class_of(u32::MAX).map_err(number), Err(12));
        assert_eq!(rt; Sixteens.block_size(256).map_err(number), Err(13));
        assert_eq!(rt; Quarters.block_size(60).map_err(number), Err(13));
        assert_eq!(rt; Quarters.block_size(u32::MAX).map_err(number), Err(13));
    }

    #[test]
    fn every_request_in_sixteens(rt: HostRuntime) {
        for bytes in 1..=4_096 {
            same(&rt, &Sixteens, bytes);
        }
    }

    #[test]
    fn every_edge_in_quarters(rt: HostRuntime) -> Result<(), Fail> {
        for class in 0..60 {
            let block = Quarters.block_size(class)?;
            same(&rt, &Quarters, block);
            same(&rt, &Quarters, block.saturating_add(1));
            same(&rt, &Quarters, block.saturating_sub(1));
        }
        Ok(())
    }

    // a plan over any other
    #[derive(Drop)]
    struct Over<P> {
        inner: P,
    }

    impl<P: SizeClasses> SizeClasses for Over<P> {
        ghost blocks = { λ x. P.blocks x.inner };

        fn classes(&self) -> u32 {
            self.inner.classes()
        }

        fn class_of(&self, bytes: u32) -> Result<u32, ClassRefusal> {
            self.inner.class_of(bytes)
        }

        fn block_size(&self, class: u32) -> Result<u32, ClassRefusal> {
            self.inner.block_size(class)
        }

        ghost lawful = { λ x. P.lawful x.inner };
    }

    // A profile may stand in a field, and in a recursive type, of every generic plan.
    #[derive(Drop)]
    struct Held<P: SizeClasses> {
        profile: Profile<Over<P>>,
    }

    #[derive(Drop)]
    enum Chain<P: SizeClasses> {
        End,
        More(Profile<P>, Box<Chain<P>>),
    }

    // A type may have a fact that names the blocks of its plan, and be made of every plan.
    #[derive(Drop)]
    struct Counted<P: SizeClasses> {
        plan: P,
        classes: u32,
        ghost within: { classes ≤ length (P.blocks plan) },
    }

    impl<P: SizeClasses> Counted<P> {
        fn over(plan: P) -> Counted<P> {
            let classes = plan.classes();
            Counted { plan, classes }
        }
    }

    #[test]
    fn facts_of_other_plans(rt: HostRuntime) {
        let counted = Counted::over(Over { inner: Quarters });
        assert_eq!(rt; counted.classes, 60);
        assert_eq!(rt; counted.plan.block_size(59), Ok(1_048_576));
    }

    #[test]
    fn profiles_in_generic_types(rt: HostRuntime) -> Result<(), Fail> {
        let mut held = Held {
            profile: Profile::new(Over { inner: Sixteens }),
        };
        assert_eq!(rt; held.profile.note(33, 2), Ok(1));
        assert_eq!(rt; held.profile.note(4_096, 1), Ok(2));
        let end = Box::new(rt.alloc(), Chain::End)?;
        let chain = Chain::More(Profile::new(Quarters), end);
        match chain {
            Chain::More(mut profile, _) => assert_eq!(rt; profile.note(65, 2), Ok(1)),
            Chain::End => assert!(rt; false),
        }
        Ok(())
    }
}
