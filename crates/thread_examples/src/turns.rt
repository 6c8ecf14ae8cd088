//! A turn in one thread, over an account that may not rise above a limit.
ghost use Rattle.std.specs.Prelude.{◌≡◌, ◌≤◌, [], ◌∷◌, is_some, MatchOption};

use std::test::Fail;
use tcmu_types::NoMemory;
use turn_lock::{Stepped, Turn, receipts_last};

/// The totals that were reached, one behind the other.
#[derive(Drop)]
struct Account {
    limit: u64,
    totals: Vec<u64>,
}

impl Stepped for Account {
    /// An amount to be added.
    type Ask = u64;

    /// The new total, where the limit allows it.
    type Told = Option<u64>;

    type Script = u64;

    type Entry = u64;

    ghost script = { λ a. a.limit };

    ghost history = { λ a. a.totals.items };

    ghost makes_entry = { λ told. is_some told };

    ghost fits = { λ limit _ _ told added. MatchOption told (added ≡ []) (λ total. (total ≤ limit) × (added ≡ total ∷ [])) };

    fn length(&self) -> u64 {
        self.totals.len() as u64
    }

    fn ask(&mut self, ask: &u64) -> Result<Option<u64>, NoMemory> {
        let last = self.totals.last().copied().unwrap_or(0);
        let total = last.saturating_add(*ask);
        if total > self.limit {
            return Ok(None);
        }
        self.totals.push(total)?;
        Ok(Some(total))
    }
}

#[test]
fn passes_ask_one_after_another(rt: HostRuntime) -> Result<(), Fail> {
    let account = Account {
        limit: 12,
        totals: Vec::new(rt.alloc()),
    };
    let Ok((turn, mut pass)) = Turn::start(rt.alloc(), account, 2) else {
        panic!(rt; "no memory")
    };
    let mut other = turn.split(&mut pass);
    assert_eq!(rt; turn.ask(&rt, &mut pass, &4), (Ok(Some(4)), 1));
    assert_eq!(rt; turn.ask(&rt, &mut other, &9), (Ok(None), 1));
    assert_eq!(rt; turn.ask(&rt, &mut other, &6), (Ok(Some(10)), 2));
    turn.join(&mut pass, other);
    let account = turn.close(pass);
    assert_eq!(rt; account.totals.as_slice(), [4, 10].as_slice());
    receipts_last::<Account>();
    Ok(())
}
