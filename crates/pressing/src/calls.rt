ghost use Rattle.std.specs.Prelude.{◌≡◌, ℕ, ◌≤◌, List, length};
ghost use Rattle.runs.specs.Runs.{beginning};
ghost use Rattle.pressing.specs.Memory.{Memory, lent, held, left_in};
ghost use Rattle.pressing.specs.Left.{Left};
ghost use Rattle.pressing.specs.Stages.{next_stage, begun};
ghost use Rattle.pressing.specs.Calls.{EnterDone, MapDone, OrderDone, FitDone, ReopenDone, SealDone};

use crate::answer::Fit;
use crate::entering::is_entered;
use crate::lists::{Lists, MOST_NAMES};
use crate::press::Pressing;
use crate::stage::Event;
use crate::working::{map_lists, order_lists};
use graph::rows::Row;
use hashing::seed::Seed;
use hashing::sizes::Sizes;
use leveling::fit::fit_level;
use names::kind::Kind;
use runs::fault::PressFault;
use runs::stage::Stage;
use sealing::write::write_plate;
use std::marker::PhantomData;
use ways::way::Way;

impl<N: Kind> Pressing<N> {
    /// A pressing that is open, without names: the empty run left it, whatever the lists hold.
    pub fn new() -> Pressing<N>
        ensures { (l : Memory N) → Left N.spelling beginning result l }
    {
        Pressing {
            stage: Stage::Open,
            count: 0,
            r: 0,
            seed: 0,
            level: 0,
            levels: 0,
            kind: PhantomData,
        }
    }

    // The stage to which the event leads from the pressing's own; refused if it does not belong there.
    fn after(&self, event: Event) -> Result<Stage, PressFault>
        ensures { result ≡ next_stage event self.now.stage }
    {
        match (self.stage, event) {
            (Stage::Open, Event::Enter) => Ok(Stage::Open),
            (Stage::Open, Event::Map) => Ok(Stage::Mapped),
            (Stage::Mapped, Event::Order) => Ok(Stage::Ordered),
            (Stage::Ordered, Event::Fit(false)) => Ok(Stage::Ordered),
            (Stage::Ordered, Event::Fit(true)) => Ok(Stage::Fitted),
            (Stage::Fitted, Event::Seal) => Ok(Stage::Sealed),
            (Stage::Sealed, Event::Reopen) => Err(PressFault::WrongStage),
            (_, Event::Reopen) => Ok(Stage::Open),
            _ => Err(PressFault::WrongStage),
        }
    }

    // The same for a call that is lent lists, refused too if one of them is too short.
    fn begin(&self, event: Event, lists: &Lists<'_, N>) -> Result<Stage, PressFault>
        ensures { result ≡ begun event self.now.stage (lent (held lists.now)) }
    {
        let next = self.after(event)?;
        if !lists.are_ample() {
            return Err(PressFault::ShortList);
        }
        Ok(next)
    }

    /// Adds a name with its setting, in the row after those in use.
    pub fn enter(&mut self, lists: Lists<'_, N>, name: N, setting: u16) -> Result<(), PressFault>
        ensures { EnterDone N.spelling name setting self.old (held lists.entry) result self.new (left_in lists.exit) }
    {
        let next = self.begin(Event::Enter, &lists)?;
        let Lists { rows, .. } = lists;
        let count = self.count;
        if count >= MOST_NAMES {
            return Err(PressFault::TooManyNames);
        }
        if is_entered(rows, count, &name) {
            return Err(PressFault::SpellingEntered);
        }
        rows[count] = Row { name, setting };
        self.count = count + 1;
        self.stage = next;
        Ok(())
    }

    /// Fills the tables from the seed, and writes the graph of the names into edges and vertices.
    pub fn map(&mut self, lists: Lists<'_, N>, r: u16, seed: u32) -> Result<(), PressFault>
        ensures { MapDone N.spelling r seed self.old (held lists.entry) result self.new (left_in lists.exit) }
    {
        let next = self.begin(Event::Map, &lists)?;
        let Lists {
            rows,
            tables,
            edges,
            vertices,
            ..
        } = lists;
        let sizes = Sizes::new(self.count, r)?;
        let start = Seed::new(seed)?;
        map_lists(rows, sizes, start, tables, edges, vertices)?;
        self.r = r;
        self.seed = seed;
        self.stage = next;
        Ok(())
    }

    /// Writes the order of the vertices, sets all values to 0 and empties all slots; answers how many
    /// vertices are ordered.
    pub fn order(&mut self, lists: Lists<'_, N>) -> Result<u16, PressFault>
        ensures { OrderDone N.spelling self.old (held lists.entry) result self.new (left_in lists.exit) }
    {
        let next = self.begin(Event::Order, &lists)?;
        let Lists {
            edges,
            vertices,
            heap,
            ordered,
            slots,
            ..
        } = lists;
        let r = usize::from(self.r);
        let levels = order_lists(self.count, r, edges, vertices, heap, ordered, slots);
        self.level = 0;
        self.levels = levels;
        self.stage = next;
        Ok(levels)
    }

    /// Fits the next level by a way: its vertex gets the first rotation that fits as its value, and the
    /// slots of its names are filled.
    pub fn fit<W: Way>(&mut self, lists: Lists<'_, N>, way: &W) -> Result<Fit, PressFault>
        ensures { FitDone N.spelling (W.meaning way.now) self.old (held lists.entry) result self.new (left_in lists.exit) }
    {
        let level = self.level;
        let next = self.begin(Event::Fit(level + 1 >= self.levels), &lists)?;
        let Lists {
            edges,
            vertices,
            ordered,
            slots,
            ..
        } = lists;
        let count = self.count;
        if usize::from(way.size()) != count {
            return Err(PressFault::WaySize);
        }
        // No level is left only where the lists held no graph when they were ordered.
        if level >= self.levels {
            return Err(PressFault::Unfit(level));
        }
        let r = usize::from(self.r);
        let found = fit_level(
            way,
            usize::from(level),
            count,
            r,
            edges,
            vertices,
            ordered,
            slots,
        );
        let (rotation, tries) = found.ok_or(PressFault::Unfit(level))?;
        self.level = level + 1;
        self.stage = next;
        Ok(Fit { rotation, tries })
    }

    /// Writes the plate string at the start of the memory, and answers its length.
    pub fn seal(&mut self, lists: Lists<'_, N>, string: &mut [u8]) -> Result<usize, PressFault>
        ensures { SealDone N.spelling N.number self.old (held lists.entry) string.old result self.new (left_in lists.exit) string.new }
    {
        let next = self.begin(Event::Seal, &lists)?;
        let Lists {
            rows,
            vertices,
            slots,
            ..
        } = lists;
        let sizes = Sizes::new(self.count, self.r)?;
        let seed = Seed::new(self.seed)?;
        let written = write_plate(rows, vertices, slots, sizes, seed, string);
        let len = written.ok_or(PressFault::ShortString)?;
        self.stage = next;
        Ok(len)
    }

    /// Back to the stage open, with the names kept. No list is lent.
    pub fn reopen(&mut self) -> Result<(), PressFault>
        ensures { ReopenDone N.spelling self.old result self.new }
    {
        self.stage = self.after(Event::Reopen)?;
        Ok(())
    }
}
