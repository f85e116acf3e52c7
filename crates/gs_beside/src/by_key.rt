use crate::own_words::OwnWords;
use gs_keyed::{Key, Keyed};
use gs_script::{NamedPolicy, PolicyWord};

impl<K: Key + OwnWords<Q>, Q: NamedPolicy> OwnWords<Q> for Keyed<K> {
    ghost use Rattle.std.proofs.Common.{ap};
    ghost use Rattle.gs_beside.specs.Own.{of_key};

    ghost own = { of_key K.own };

    fn forms() -> &'static [&'static [PolicyWord]] {
        K::forms()
    }

    fn unnamed() -> Keyed<K> {
        Keyed { key: K::unnamed() }
    }

    fn of(numbers: &[u64]) -> Keyed<K> {
        Keyed {
            key: K::of(numbers),
        }
    }

    fn number(&self, place: usize) -> u64 {
        self.key.number(place)
    }

    ghost free = { K.free };

    ghost few = { K.few };

    ghost short = { K.short };

    ghost counted = { λ p. K.counted p.key };

    ghost again = { λ p. ap (λ k. record { key = k }) (K.again p.key) };

    ghost sayable = { K.sayable };

    ghost apart = { K.apart };
}
