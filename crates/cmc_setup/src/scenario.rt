// All that a run is given.
ghost use Rattle.std.specs.Prelude.{◌≡◌, ◌↔◌, IsTrue, IfOk};
ghost use Rattle.cmc_setup.specs.Setups.{IsSetup};

use crate::roles::Roles;
use crate::sameness::same_material;
use crate::steps::Steps;
use cmc_meta::Numbers;
use cmc_objects::{Material, Role, Rules, Step};
use std::alloc::AllocError;
use std::marker::Model;

/// All that a run is given: the steps of its script, and the world in which they are made.
pub struct Scenario {
    events: u64,
    window: u64,
    moment: i64,
    roles: Roles,
    faults: Numbers,
    approver: Rules,
    material: Material,
    script: Steps,
}

impl Model for Scenario {
    ghost use Rattle.cmc_setup.specs.Setups.{Setup, IsSetup};

    ghost Value = { Setup };

    ghost view = { λ s. record { events = s.events; window = s.window; moment = s.moment; roles = s.roles; faults = s.faults; approver = s.approver; material = s.material; script = s.script } };

    ghost invariant = { λ s. IsSetup (record { events = s.events; window = s.window; moment = s.moment; roles = s.roles; faults = s.faults; approver = s.approver; material = s.material; script = s.script }) };
}

impl Drop for Scenario {
    fn drop(self) {
        let Scenario {
            events: _events,
            window: _window,
            moment: _moment,
            roles: _roles,
            faults: _faults,
            approver: _approver,
            material: _material,
            script: _script,
        } = self;
    }
}

impl Scenario {
    /// The scenario of these parts.
    ///
    /// A history has at most `events` entries, and a watch reaches back over `window` accepted writes
    /// (both 1 to 250,000). The run begins at the moment `now`, in seconds since
    /// 1970-01-01T00:00:00Z, not before 1951, and all its ticks end by 9900-01-01T00:00:00Z. The
    /// `roles` run from the beginning on, the store calls of the numbers `faults`, from 1 and
    /// ascending, fail, and `script` has at most 10,000 steps, whose ticks have 1 to 1,000,000,000
    /// seconds each. It stops a role only where it runs when the step's turn comes, and starts it only
    /// where it does not.
    pub fn new(
        events: u64,
        window: u64,
        now: i64,
        roles: Roles,
        faults: Numbers,
        approver: Rules,
        material: Material,
        script: Steps,
    ) -> Scenario
        requires { IsSetup (record { events = events; window = window; moment = now; roles = roles; faults = faults; approver = approver; material = material; script = script }) }
        ensures { result ≡ record { events = events; window = window; moment = now; roles = roles; faults = faults; approver = approver; material = material; script = script } }
    {
        Scenario {
            events,
            window,
            moment: now,
            roles,
            faults,
            approver,
            material,
            script,
        }
    }

    /// The most entries that a history may have.
    pub fn events(&self) -> u64
        ensures value { result ≡ self.now.events }
        ensures setup { IsSetup self.now }
    {
        self.events
    }

    /// Over how many accepted writes a watch reaches back.
    pub fn window(&self) -> u64
        ensures { result ≡ self.now.window }
    {
        self.window
    }

    /// The moment of the beginning, in seconds since 1970-01-01T00:00:00Z.
    pub fn now(&self) -> i64
        ensures { result ≡ self.now.moment }
    {
        self.moment
    }

    /// The roles that run from the beginning on, in their order.
    pub fn roles(&self) -> &[Role]
        ensures { result.now ≡ self.now.roles }
    {
        self.roles.as_slice()
    }

    /// The numbers of the store calls that fail, from 1 and ascending.
    pub fn faults(&self) -> &[u64]
        ensures { result.now ≡ self.now.faults }
    {
        self.faults.as_slice()
    }

    /// What the approver lets pass.
    pub fn approver(&self) -> &Rules
        ensures { result.now ≡ self.now.approver }
    {
        &self.approver
    }

    /// What is said of the keys and the issuers of Certificates.
    pub fn material(&self) -> &Material
        ensures { result.now ≡ self.now.material }
    {
        &self.material
    }

    /// The steps that are made, one after another.
    pub fn script(&self) -> &[Step]
        ensures { result.now ≡ self.now.script }
    {
        self.script.as_slice()
    }

    /// An equal scenario.
    pub fn copy(&self) -> Result<Scenario, AllocError>
        ensures { IfOk result (λ s. s ≡ self.now) }
    {
        let roles = self.roles.copy()?;
        let faults = self.faults.copy()?;
        let approver = self.approver.copy()?;
        let material = self.material.copy()?;
        let script = self.script.copy()?;
        Ok(Scenario {
            events: self.events,
            window: self.window,
            moment: self.moment,
            roles,
            faults,
            approver,
            material,
            script,
        })
    }

    /// Whether both are one scenario: equal in each part.
    pub fn same(&self, other: &Scenario) -> bool
        ensures { IsTrue result ↔ (self.now ≡ other.now) }
    {
        self.events == other.events
            && self.window == other.window
            && self.moment == other.moment
            && self.roles.same(&other.roles)
            && self.faults.same(&other.faults)
            && self.approver.same(&other.approver)
            && same_material(&self.material, &other.material)
            && self.script.same(&other.script)
    }
}
