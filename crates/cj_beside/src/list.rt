//! Lists of backends that tell their contents only where a store does.

ghost use Rattle.std.specs.Prelude.{◌≡◌, map, length, IfOk};
ghost use Rattle.cj_beside.specs.Besides.{told_beside};

use crate::backend::Beside;
use cj_backend::Backend;
use cj_model::{ListOf, NoMemory};
use cj_outside::Store;

/// Wraps each backend of a list, in order, without a call of any. Out of memory loses all of them.
pub fn beside<B: Backend + Drop, D: Store>(
    backends: ListOf<B>,
) -> Result<ListOf<Beside<B, D>>, NoMemory>
    ensures inner { IfOk result (λ made. map (λ b. b.inner) made ≡ backends) }
    ensures count { IfOk result (λ made. length made ≡ length backends) }
    ensures told { IfOk result (λ made. map ⟦<Beside<B, D> as Backend>⟧.told made ≡ map (λ b. told_beside D.tells (B.told b)) backends) }
    ensures begun { IfOk result (λ made. map ⟦<Beside<B, D> as Backend>⟧.begun made ≡ map B.begun backends) }
    ensures faults { IfOk result (λ made. map ⟦<Beside<B, D> as Backend>⟧.faults made ≡ map B.faults backends) }
    ensures asks { IfOk result (λ made. map ⟦<Beside<B, D> as Backend>⟧.asks made ≡ map B.asks backends) }
    ensures login { IfOk result (λ made. map ⟦<Beside<B, D> as Backend>⟧.login made ≡ map B.login backends) }
    ensures arming { IfOk result (λ made. map ⟦<Beside<B, D> as Backend>⟧.arming made ≡ map B.arming backends) }
{
    let backends = backends.into_vec();
    let mut made = Vec::with_capacity(*backends.allocator(), backends.len())?;
    for backend in backends {
        made.push(Beside::new(backend))?;
    }
    Ok(ListOf::from_vec(made))
}
