// What a reader hears of the bursts on the line, and the answer that it sends.
ghost use Rattle.account.specs.Line.{reader_hears};
ghost use Rattle.damage.specs.Damages.{heard as heard_of, hearing as damaging};
ghost use Rattle.line.specs.Lines.{room};
ghost use Rattle.line.specs.Ways.{on_way, sent_at};
ghost use Rattle.readers.specs.Readers.{at, place_of};
ghost use Rattle.rules.specs.Reader.{hear};
ghost use Rattle.rules.specs.Telegrams.{telegram_read};
ghost use Rattle.site.specs.Shown.{burst_of};
ghost use Rattle.site.specs.Sites.{Answered, Leads, answered_as, at_end, marked_by, seen, symbols_of, taken_off, undamaged};
ghost use Rattle.site.specs.Troubles.{is_made, no_memory};
ghost use Rattle.site.specs.declared.trouble.Trouble.TheVariants as trouble;
ghost use Rattle.std.specs.Prelude.{◌≡◌, suc, ◌-◌, true, if◌then◌else◌, Err, nat_lt};
ghost use Rattle.std.specs.Option.{option_map};

use crate::{Answer, Site, Trouble};
use damage::Damage;
use frame::Format;
use reader::Heard;
use rules::message::Message;
use station::Refusal;

impl<F: Format> Site<F> {
    // Burst k was heard at an end.
    pub(crate) fn take_off(&mut self, end: usize, k: usize)
        ensures moved { seen self.new ≡ taken_off end k (seen self.old) }
        ensures room { room self.new.line ≡ room self.old.line }
        ensures readers { self.new.readers ≡ self.old.readers }
    {
        // It was on the way.
        let _ = self.line.arrive(end, k);
        self.started = true;
    }

    // A reader's answer to burst k goes out.
    fn answer(
        &mut self,
        address: u8,
        end: usize,
        k: usize,
        heard: Result<Heard, Refusal>,
        buffer: Vec<u16>,
    ) -> Result<Answer, Trouble>
        requires { room self.old.line ≡ true }
        ensures { Answered address end k heard buffer.items (seen self.old) (seen self.new) result }
    {
        // A refused burst was heard all the same; for want of memory it was not.
        if let Err(Refusal::Memory) = heard {
            return Err(Trouble::OutOfMemory);
        }
        self.take_off(end, k);
        let heard = heard?;
        let number = self.readers.newest_hand_out(address);
        let burst = self.launch(buffer, heard.count, number);
        Ok(Answer {
            burst,
            taken: heard.taken,
            mark: heard.mark,
        })
    }

    // A reader hears burst k, and answers it with a buffer of so many places; the message that was out, if it is
    // marked, then stands in the caller's record, by section 9 of docs/RULES.md: 20, read's faults, 8, 9, 10, 11, 12.
    pub fn hear_at_reader(
        &mut self,
        address: u8,
        k: usize,
        damage: &Damage,
        places: usize,
        marked: &mut Message,
    ) -> Result<Answer, Trouble>
        ensures answer { result ≡ (if no_memory result then Err trouble.OutOfMemory else at_end (option_map suc (place_of address (seen self.old).readers)) (λ end. (if on_way end k (seen self.old).line then undamaged (damaging F.WIDTH F.GUARD damage.now.cut damage.now.flips.items (symbols_of (sent_at k (seen self.old).line))) (λ heard. answered_as (seen self.old) (option_map (λ x. hear (nat_lt places F.LONGEST) (telegram_read (F.verdict heard)) x.reader) (at address (seen self.old).readers))) else Err trouble.NotOnWay))) }
        ensures kept { marked.new ≡ marked_by result (at address (seen self.old).readers) marked.old }
        ensures steps { Leads F.Format (is_made result) (seen self.old) (seen self.new) (λ w. reader_hears (nat_lt places F.LONGEST) address (k - 1) (burst_of k w) (heard_of damage.now.cut damage.now.flips.items (symbols_of (sent_at k (seen self.old).line)))) }
    {
        let end = self.end_of(address).ok_or(Trouble::NoReader)?;
        if !self.line.is_on_way(end, k) {
            return Err(Trouble::NotOnWay);
        }
        let heard = self.listen(k, damage)?;
        let mut buffer = self.prepare(address, places)?;
        let number = self.number_of(k);
        let station = self.readers.get_mut(address).ok_or(Trouble::NoReader)?;
        let answer = station.hear(number, &heard, marked, &mut buffer);
        self.answer(address, end, k, answer, buffer)
    }
}
