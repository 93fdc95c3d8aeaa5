//! What the checks of a server say of it.
use conn_model::event::Health;
use plan_types::Check;

/// Whether a server is up, and what its last checks said.
#[derive(Clone, Copy, Debug, PartialEq, Eq)]
pub struct Trend {
    pub is_up: bool,
    /// Whether a check succeeded while it was up.
    pub has_passed: bool,
    /// How many checks in a row said otherwise.
    pub against: u64,
}

impl Trend {
    ghost use Rattle.std.specs.Prelude.{◌≡◌};
    ghost use Rattle.socket_core.specs.Trend.{marked, other_health, report_after, trend_after, turning_point};

    /// Of a server that was not checked yet. It is up, as in HAProxy, until its first check fails.
    pub const fn new() -> Trend {
        Trend {
            is_up: true,
            has_passed: false,
            against: 0,
        }
    }

    /// Of a server that was reported down before, and was not checked since.
    pub const fn of_down() -> Trend {
        Trend {
            is_up: false,
            has_passed: false,
            against: 0,
        }
    }

    /// A check succeeded, or it failed. What is to be reported is said again after each check until it was.
    pub fn note(&mut self, passed: bool, check: &Check) -> Option<Health>
        ensures trend { self.new ≡ trend_after self.old.is_up passed self.old }
        ensures report { result ≡ report_after check.now self.new }
    {
        if passed == self.is_up {
            self.has_passed = self.has_passed || passed;
            self.against = 0;
        } else {
            self.against = self.against.saturating_add(1);
        }
        (self.against >= self.turning_point(check)).then_some(self.other())
    }

    /// How many checks in a row have to say otherwise (HAProxy manual, `fall` and `rise`).
    fn turning_point(&self, check: &Check) -> u64
        ensures { result ≡ turning_point check.now self.now }
    {
        match (self.is_up, self.has_passed) {
            (true, true) => check.fall,
            (true, false) => 1,
            (false, _) => check.rise,
        }
    }

    fn other(&self) -> Health
        ensures { result ≡ other_health self.now.is_up }
    {
        if self.is_up { Health::Down } else { Health::Up }
    }

    /// It was reported so.
    pub fn mark(&mut self, health: Health)
        ensures { self.new ≡ marked health }
    {
        self.is_up = health == Health::Up;
        self.has_passed = self.is_up;
        self.against = 0;
    }
}
