// What the ends hear of the bursts on the line, and what the line loses.
ghost use Rattle.account.specs.Line.{concentrator_hears, loses, loses_all};
ghost use Rattle.damage.specs.Damages.{heard as heard_of, hearing as damaging};
ghost use Rattle.frame.specs.Damage.{Damaged, Fits};
ghost use Rattle.line.specs.Ways.{arrived, on_way, sent_at};
ghost use Rattle.readers.specs.Readers.{place_of};
ghost use Rattle.rules.specs.Concentrator.{hear};
ghost use Rattle.rules.specs.Exchanges.{heard_answer};
ghost use Rattle.rules.specs.Telegrams.{telegram_read};
ghost use Rattle.site.specs.Shown.{burst_of};
ghost use Rattle.site.specs.Sites.{Hears, Leads, Listened, ReadyFor, at_end, number_of, seen, symbols_of, undamaged, with_line};
ghost use Rattle.site.specs.Troubles.{is_made, no_memory, told};
ghost use Rattle.site.specs.declared.trouble.Trouble.TheVariants as trouble;
ghost use Rattle.std.specs.Prelude.{◌≡◌, suc, ◌-◌, true, IfOk, if◌then◌else◌, Ok, Err, OnOk};
ghost use Rattle.std.specs.Option.{option_map};

use crate::sending::station_of;
use crate::{Site, Trouble};
use damage::Damage;
use fault::Fault;
use frame::Format;
use rules::records::{Exchange, Outcome};
use std::alloc::AllocError;

impl<F: Format> Site<F> {
    // What is heard of burst k with some damage.
    pub(crate) fn listen(&self, k: usize, damage: &Damage) -> Result<Vec<u16>, Trouble>
        ensures answer { Listened result (damaging F.WIDTH F.GUARD damage.now.cut damage.now.flips.items (symbols_of (sent_at k (seen self.now).line))) }
        ensures damaged { IfOk result (λ v. Fits F.WIDTH (symbols_of (sent_at k (seen self.now).line)) → Damaged F.WIDTH F.GUARD (symbols_of (sent_at k (seen self.now).line)) v.items) }
    {
        let symbols = self.line.symbols(k).unwrap_or(&[]);
        Ok(damage::heard::<F>(self.heap, symbols, damage)?)
    }

    // The number of burst k; 0 for none, as the account numbers bursts.
    pub(crate) fn number_of(&self, k: usize) -> usize
        ensures { result ≡ number_of (sent_at k (seen self.now).line) }
    {
        self.line.number(k).unwrap_or(0)
    }

    // Room in memory for the end of an exchange; no value stands for it, as for that of `prepare`.
    fn make_ready(&mut self, exchange: Option<Exchange>) -> Result<(), AllocError>
        ensures same { seen self.new ≡ seen self.old }
        ensures ready { OnOk result (ReadyFor exchange self.new.readers) }
    {
        self.readers.reserve(station_of(exchange))
    }

    // Burst k was heard at the concentrator, with this outcome of the exchange that was open.
    fn conclude(
        &mut self,
        exchange: Option<Exchange>,
        k: usize,
        outcome: Result<Outcome, Fault>,
    ) -> Result<Outcome, Trouble>
        requires { ReadyFor exchange self.old.readers }
        ensures { Hears exchange k outcome (seen self.old) (seen self.new) result }
    {
        let number = self.number_of(k);
        self.take_off(0, k);
        let outcome = outcome?;
        self.end(exchange, number, outcome);
        Ok(outcome)
    }

    // The concentrator hears burst k: read's faults, 13, 8, 9, 10.
    pub fn hear_at_concentrator(&mut self, k: usize, damage: &Damage) -> Result<Outcome, Trouble>
        ensures answer { result ≡ (if no_memory result then Err trouble.OutOfMemory else (if on_way 0 k (seen self.old).line then undamaged (damaging F.WIDTH F.GUARD damage.now.cut damage.now.flips.items (symbols_of (sent_at k (seen self.old).line))) (λ heard. told (heard_answer (hear (telegram_read (F.verdict heard)) (seen self.old).concentrator))) else Err trouble.NotOnWay)) }
        ensures steps { Leads F.Format (is_made result) (seen self.old) (seen self.new) (λ w. concentrator_hears (k - 1) (burst_of k w) (heard_of damage.now.cut damage.now.flips.items (symbols_of (sent_at k (seen self.old).line)))) }
    {
        if !self.line.is_on_way(0, k) {
            return Err(Trouble::NotOnWay);
        }
        let heard = self.listen(k, damage)?;
        let exchange = self.concentrator.exchange();
        self.make_ready(exchange)?;
        let outcome = self.concentrator.hear(&heard);
        self.conclude(exchange, k, outcome)
    }

    // The end of the line that a reader is at; the concentrator is at end 0.
    pub(crate) fn end_of(&self, address: u8) -> Option<usize>
        ensures { result ≡ option_map suc (place_of address (seen self.now).readers) }
    {
        Some(self.readers.find(address)? + 1)
    }

    // The line loses burst k at an end.
    fn lose(&mut self, end: usize, k: usize) -> Result<(), Trouble>
        ensures answer { result ≡ (if on_way end k (seen self.old).line then Ok tt else Err trouble.NotOnWay) }
        ensures moved { seen self.new ≡ (if on_way end k (seen self.old).line then with_line (arrived end k (seen self.old).line) (seen self.old) else seen self.old) }
    {
        if self.line.arrive(end, k) {
            Ok(())
        } else {
            Err(Trouble::NotOnWay)
        }
    }

    // The line loses burst k at the concentrator.
    pub fn lose_at_concentrator(&mut self, k: usize) -> Result<(), Trouble>
        ensures answer { result ≡ (if on_way 0 k (seen self.old).line then Ok tt else Err trouble.NotOnWay) }
        ensures steps { Leads F.Format (is_made result) (seen self.old) (seen self.new) (λ w. loses 0 (k - 1) (burst_of k w)) }
    {
        self.lose(0, k)
    }

    // The line loses burst k at a reader.
    pub fn lose_at_reader(&mut self, address: u8, k: usize) -> Result<(), Trouble>
        ensures answer { result ≡ at_end (option_map suc (place_of address (seen self.old).readers)) (λ end. (if on_way end k (seen self.old).line then Ok tt else Err trouble.NotOnWay)) }
        ensures steps { Leads F.Format (is_made result) (seen self.old) (seen self.new) (λ w. loses address (k - 1) (burst_of k w)) }
    {
        let end = self.end_of(address).ok_or(Trouble::NoReader)?;
        self.lose(end, k)
    }

    // The line loses every burst at every end.
    pub fn quiet(&mut self)
        ensures { Leads F.Format true (seen self.old) (seen self.new) (λ w. loses_all) }
    {
        self.line.quiet();
    }
}
