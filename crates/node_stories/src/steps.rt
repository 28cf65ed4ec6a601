//! The calls of a node, by the names of their clients and tickets.
use crate::desk::Desk;
use crate::post::{Joined, Link};
use crate::reply_text::{
    close_told, counted, ended_told, failed_told, key_told, leave_told, order_told, refused,
    refused_step, release_told, restart_told, up_failed_told,
};
use crate::words::{Trouble, database, eight, key, number, small, told};
use node_core::{
    AcquireReply, Order, PassRecord, PermitRecord, StepRefusal, TicketRecord, UpReply,
};
use pg_ids::{AnyKey, Kind};
use std::alloc::Global;
use std::sync::Wait;

impl Desk {
    /// What a call with one word brings about.
    pub(crate) fn one_word<R: Wait>(
        &mut self,
        rt: &R,
        alloc: Global,
        name: &str,
        word: &str,
    ) -> Result<String, Trouble> {
        match name {
            "node" => self.make_of_file(alloc),
            "boot" => self.set_boot(alloc, number(word)?),
            "cancel" => self.cancel(rt, alloc, key(word)?),
            "ended" => {
                let ticket = self.ticket(word)?;
                ended_told(alloc, self.post.ended(rt, ticket))
            }
            "failed" => {
                let ticket = self.ticket(word)?;
                failed_told(alloc, self.post.failed(rt, ticket))
            }
            "restart" => restart_told(alloc, self.post.restart(rt, number(word)?)),
            _ => self.of_client(rt, alloc, name, number(word)?),
        }
    }

    // What a call of a client brings about.
    fn of_client<R: Wait>(
        &mut self,
        rt: &R,
        alloc: Global,
        name: &str,
        client: u64,
    ) -> Result<String, Trouble> {
        match name {
            "acquire" => self.acquire(rt, alloc, client),
            "upfail" => {
                let permit = self.permit(client)?;
                up_failed_told(alloc, self.post.up_failed(rt, permit))
            }
            "release" => {
                let link = self.link(client)?;
                release_told(alloc, self.post.release(rt, &link))
            }
            "close" => {
                let link = self.link(client)?;
                close_told(alloc, self.post.close(rt, &link))
            }
            "leave" => {
                let pass = self.pass(client)?;
                leave_told(alloc, self.post.leave(rt, pass))
            }
            _ => Err(Trouble::Line),
        }
    }

    /// What a call with two words brings about.
    pub(crate) fn two_words<R: Wait>(
        &mut self,
        rt: &R,
        alloc: Global,
        name: &str,
        one: &str,
        two: &str,
    ) -> Result<String, Trouble> {
        match name {
            "login" | "login32" => self.three_words(rt, alloc, name, one, two, "0"),
            "cancels" => {
                let (count, key) = (small(one)?, key(two)?);
                self.cancels(rt, alloc, count, &key)
            },
            _ => Err(Trouble::Line),
        }
    }

    /// What a call with three words brings about.
    pub(crate) fn three_words<R: Wait>(
        &mut self,
        rt: &R,
        alloc: Global,
        name: &str,
        one: &str,
        two: &str,
        three: &str,
    ) -> Result<String, Trouble> {
        let client = number(one)?;
        match name {
            "login" => self.login(
                rt,
                alloc,
                client,
                small(two)?,
                database(three)?,
                Kind::Short,
            ),
            "login32" => self.login(rt, alloc, client, small(two)?, database(three)?, Kind::Long),
            "up" => self.up(rt, alloc, client, eight(two)?, small(three)?),
            _ => Err(Trouble::Line),
        }
    }

    fn pass(&self, client: u64) -> Result<PassRecord, Trouble> {
        match self.passes.last(client) {
            Some(pass) => Ok(pass),
            None => Err(Trouble::Line),
        }
    }

    fn permit(&self, client: u64) -> Result<PermitRecord, Trouble> {
        self.permits.last(client).ok_or(Trouble::Line)
    }

    fn link(&self, client: u64) -> Result<Link, Trouble> {
        self.links.last(client).ok_or(Trouble::Line)
    }

    fn ticket(&self, word: &str) -> Result<TicketRecord, Trouble> {
        self.tickets.last(number(word)?).ok_or(Trouble::Line)
    }

    fn login<R: Wait>(
        &mut self,
        rt: &R,
        alloc: Global,
        client: u64,
        secret: u32,
        database: u8,
        kind: Kind,
    ) -> Result<String, Trouble> {
        match self.post.join(rt, database, secret, kind) {
            Joined::Pass(pass) => {
                let key = pass.key;
                self.passes.put(client, pass)?;
                key_told(alloc, key)
            }
            Joined::Refused(refusal) => refused(alloc, refusal.number(), &refusal),
            Joined::NoDatabase => Err(Trouble::Line),
        }
    }

    fn acquire<R: Wait>(&mut self, rt: &R, alloc: Global, client: u64) -> Result<String, Trouble> {
        let pass = self.pass(client)?;
        match self.post.acquire(rt, pass) {
            AcquireReply::Got(link) => self.lent(alloc, "got", client, link),
            AcquireReply::Open(permit) => {
                let number = permit.number;
                self.permits.put(client, permit)?;
                counted(alloc, "open", number)
            }
            AcquireReply::Waiting => told(alloc, "waiting"),
            AcquireReply::Cancelled => told(alloc, "cancelled"),
            AcquireReply::Holding => refused_step(alloc, StepRefusal::Holding),
            AcquireReply::Exhausted => refused_step(alloc, StepRefusal::Exhausted),
            AcquireReply::Stale => refused_step(alloc, StepRefusal::Stale),
        }
    }

    fn up<R: Wait>(
        &mut self,
        rt: &R,
        alloc: Global,
        client: u64,
        key: [u8; 8],
        stream: u32,
    ) -> Result<String, Trouble> {
        let permit = self.permit(client)?;
        match self.post.up(rt, permit, stream, key) {
            UpReply::Up(link) => self.lent(alloc, "lease", client, link),
            UpReply::Stale(stream) => counted(alloc, "stale", u64::from(stream)),
            UpReply::Exhausted(_, _) | UpReply::AtEnd(_) => {
                refused_step(alloc, StepRefusal::Exhausted)
            }
        }
    }

    // The client has this link.
    fn lent(
        &mut self,
        alloc: Global,
        word: &str,
        client: u64,
        link: Link,
    ) -> Result<String, Trouble> {
        let number = link.number();
        self.links.put(client, link)?;
        counted(alloc, word, number)
    }

    fn cancel<R: Wait>(&mut self, rt: &R, alloc: Global, key: AnyKey) -> Result<String, Trouble> {
        let order = self.post.cancel(rt, key);
        if let Order::Serve(ticket, _, _) = &order {
            self.tickets.put(ticket.number, *ticket)?;
        }
        order_told(alloc, &order)
    }

    // That many cancel requests with one key, of which none ends.
    fn cancels<R: Wait>(
        &mut self,
        rt: &R,
        alloc: Global,
        count: u32,
        key: &AnyKey,
    ) -> Result<String, Trouble> {
        let mut served = 0u64;
        for _ in 0..count {
            if let Order::Serve(_, _, _) = self.post.cancel(rt, *key) {
                served = served.saturating_add(1);
            }
        }
        counted(alloc, "served", served)
    }
}
