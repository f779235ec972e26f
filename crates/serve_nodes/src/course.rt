//! How far a node of a server is in its incarnation.

ghost use Rattle.std.specs.Prelude.{◌≡◌, ◌≢◌, ◌↔◌, ◌-◌, IsTrue};
ghost use Rattle.serve_nodes.specs.Courses.{HasFew, begun_anew, counted, first, is_ticked, needed_for, serials_from, served, through, ticked};
ghost use Rattle.serve_nodes.specs.declared.course.Stage.TheVariants as stages;

use mc_types::LAST_SERIAL;

/// What a node has come to in its incarnation.
#[derive(Clone, Copy, Debug, PartialEq, Eq)]
pub enum Stage {
    /// No tick has come: its clock stands at its least moment.
    Still,
    /// A tick has come, and nobody is served yet.
    Ticked,
    /// It may be served.
    Serves,
}

/// Why a node is to start anew.
#[derive(Clone, Copy, Debug, PartialEq, Eq)]
pub enum Need {
    /// It has few serials left.
    Serials,
    /// Its store failed.
    Store,
}

/// How far a node is in its incarnation: its stage, whether it started anew and is not through with its first tick, why it is to start anew, if it is, and how many
/// serials it has given.
#[derive(Clone, Copy, Debug, PartialEq, Eq)]
pub struct Course {
    stage: Stage,
    is_anew: bool,
    need: Option<Need>,
    serials: u64,
}

/// From how many serials on that are left a node is to start anew, if it has twice as many at first.
const FEW_SERIALS: u64 = 10_000;

impl Course {
    /// That of the first incarnation of a server, before its first tick.
    pub(crate) fn first() -> Course
        ensures { result ≡ first }
    {
        Course {
            stage: Stage::Still,
            is_anew: false,
            need: None,
            serials: 0,
        }
    }

    /// That of an incarnation that was begun while the server serves, before its first tick.
    pub fn anew() -> Course
        ensures { result ≡ begun_anew }
    {
        Course {
            is_anew: true,
            ..Course::first()
        }
    }

    /// A tick came.
    pub fn tick(&mut self)
        ensures { self.new ≡ ticked self.old }
    {
        if self.stage == Stage::Still {
            self.stage = Stage::Ticked;
        }
    }

    /// It may be served from now on, if a tick came; whether it was not before.
    pub fn serve(&mut self) -> bool
        ensures begins { result ≡ is_ticked self.old.stage }
        ensures after { self.new ≡ served self.old }
    {
        if self.stage != Stage::Ticked {
            return false;
        }
        self.stage = Stage::Serves;
        true
    }

    /// The rounds of its first tick are through; whether it started anew, and was not through before.
    pub fn settle(&mut self) -> bool
        ensures was { result ≡ self.old.is_anew }
        ensures after { self.new ≡ through self.old }
    {
        let was = self.is_anew;
        self.is_anew = false;
        was
    }

    /// It is to start anew for this reason. That its store failed outlasts that it has few serials.
    pub fn need(&mut self, need: Need)
        ensures { self.new ≡ needed_for need self.old }
    {
        if self.need != Some(Need::Store) {
            self.need = Some(need);
        }
    }

    /// Another message has a serial.
    pub fn count_serial(&mut self)
        ensures { self.new ≡ counted self.old }
    {
        self.serials = self.serials.saturating_add(1);
    }

    /// Whether a tick has come.
    pub fn has_ticked(&self) -> bool
        ensures { IsTrue result ↔ (self.now.stage ≢ stages.Still) }
    {
        self.stage != Stage::Still
    }

    /// Whether it may be served.
    pub fn serves(&self) -> bool
        ensures { IsTrue result ↔ (self.now.stage ≡ stages.Serves) }
    {
        self.stage == Stage::Serves
    }

    /// Whether it started anew, and is not through with its first tick.
    pub fn is_anew(&self) -> bool
        ensures { result ≡ self.now.is_anew }
    {
        self.is_anew
    }

    /// Why it is to start anew, if it is.
    pub fn wanted(&self) -> Option<Need>
        ensures { result ≡ self.now.need }
    {
        self.need
    }

    /// How many serials it has left of those from this one on, up to 99,999.
    pub fn serials_left(&self, first_serial: u32) -> u64
        ensures { result ≡ serials_from first_serial - self.now.serials }
    {
        let all = u64::from(LAST_SERIAL.saturating_sub(first_serial)).saturating_add(1);
        all.saturating_sub(self.serials)
    }

    /// Whether few serials are left of those from this one on, 1 to 99,999: 10,000, or half of them if they are fewer than twice as many.
    pub fn has_few_serials(&self, first_serial: u32) -> bool
        ensures { IsTrue result ↔ HasFew first_serial self.now.serials }
    {
        let all = u64::from(LAST_SERIAL.saturating_sub(first_serial)).saturating_add(1);
        let few = FEW_SERIALS.min(all / 2);
        self.serials.saturating_add(few) >= all
    }
}
