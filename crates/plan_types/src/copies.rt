//! Copies of a plan and of its parts.
ghost use Rattle.std.specs.Prelude.{◌≡◌, IfOk};

use crate::plan::{Backend, Bind, Choice, Frontend, Plan, Rule, Server, Table};
use crate::track::{TableId, Track};
use list_core::Duplicate;
use std::alloc::{AllocError, Global};

impl Plan {
    /// A plan that is equal, with memory of its own.
    pub fn copy(&self, alloc: Global) -> Result<Plan, AllocError>
        ensures { IfOk result (λ plan. plan ≡ self.now) }
    {
        Ok(Plan {
            frontends: self.frontends.duplicate(alloc)?,
            backends: self.backends.duplicate(alloc)?,
            tables: self.tables.duplicate(alloc)?,
        })
    }
}

impl Duplicate for Plan {
    fn duplicate(&self, alloc: Global) -> Result<Plan, AllocError> {
        self.copy(alloc)
    }
}

impl Duplicate for Frontend {
    fn duplicate(&self, alloc: Global) -> Result<Frontend, AllocError> {
        Ok(Frontend {
            name: self.name.duplicate(alloc)?,
            line: self.line,
            binds: self.binds.duplicate(alloc)?,
            limit: self.limit,
            limit_line: self.limit_line,
            client_timeout: self.client_timeout,
            connection_rules: self.connection_rules.duplicate(alloc)?,
            session_rules: self.session_rules.duplicate(alloc)?,
            acls: self.acls.duplicate(alloc)?,
            choices: self.choices.duplicate(alloc)?,
            default: self.default,
        })
    }
}

impl Duplicate for Backend {
    fn duplicate(&self, alloc: Global) -> Result<Backend, AllocError> {
        Ok(Backend {
            name: self.name.duplicate(alloc)?,
            line: self.line,
            method: self.method,
            connect_timeout: self.connect_timeout,
            server_timeout: self.server_timeout,
            retries: self.retries,
            redispatch: self.redispatch,
            servers: self.servers.duplicate(alloc)?,
        })
    }
}

impl Duplicate for Server {
    fn duplicate(&self, alloc: Global) -> Result<Server, AllocError> {
        Ok(Server {
            name: self.name.duplicate(alloc)?,
            line: self.line,
            to: self.to,
            weight: self.weight,
            limit: self.limit,
            disabled: self.disabled,
            send_proxy: self.send_proxy,
            send_proxy_v2: self.send_proxy_v2,
            check: self.check,
        })
    }
}

impl Duplicate for Table {
    fn duplicate(&self, alloc: Global) -> Result<Table, AllocError> {
        Ok(Table {
            section: self.section,
            name: self.name.duplicate(alloc)?,
            kind: self.kind,
            size: self.size,
            stores: self.stores,
            expire: self.expire,
        })
    }
}

impl Duplicate for Rule {
    fn duplicate(&self, alloc: Global) -> Result<Rule, AllocError> {
        Ok(Rule {
            line: self.line,
            action: self.action,
            when: self.when.duplicate(alloc)?,
        })
    }
}

impl Duplicate for Choice {
    fn duplicate(&self, alloc: Global) -> Result<Choice, AllocError> {
        Ok(Choice {
            line: self.line,
            when: self.when.duplicate(alloc)?,
            backend: self.backend,
        })
    }
}

impl Duplicate for Bind {
    fn duplicate(&self, _alloc: Global) -> Result<Bind, AllocError> {
        Ok(*self)
    }
}

impl Duplicate for Track {
    fn duplicate(&self, _alloc: Global) -> Result<Track, AllocError> {
        Ok(*self)
    }
}

impl Duplicate for TableId {
    fn duplicate(&self, _alloc: Global) -> Result<TableId, AllocError> {
        Ok(*self)
    }
}
