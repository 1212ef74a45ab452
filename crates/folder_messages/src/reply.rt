//! Replies as messages.
ghost use Rattle.std.specs.Prelude.{◌≡◌, ◌++◌, length, map, IfOk, OnOk, Ok, true};
ghost use Rattle.proto_wire.specs.Reads.{Gives};
ghost use Rattle.proto_wire.specs.Message.{spelling, fit, spelled_messages, fit_messages};
ghost use Rattle.folder_messages.specs.Entries.{empty_pick, pick_rows, pick_read, pick_of, empty_reply, reply_rows, reply_read, reply_with, reply_of};
ghost use Rattle.folder_messages.specs.Spelling.{reply_spelling, reply_value};

use crate::call::{CallRead, call_of, call_read};
use crate::parts::{Parts, all_whole, decoded_whole};
use proto_wire::{
    Bytes, Decode, DecodeFault, Encode, List, Mem, Record, bytes_size, encoded, member_size,
    messages_size, number_size, with_bytes, with_member, with_messages, with_number,
};
use run_record::Reply;
use std::alloc::Global;
use typed_values::{Address, Sender};

/// The sender of a picked letter while it is read.
#[derive(Drop)]
pub struct PickRead {
    pub member: Option<Sender>,
}

impl Decode for PickRead {
    ghost rows = { pick_rows };

    ghost empty = { empty_pick };

    #[tactic(auto, unfolding(crate::specs::Entries::empty_pick))]
    fn blank(_alloc: Global) -> PickRead {
        PickRead { member: None }
    }

    #[tactic(auto, unfolding(crate::specs::Entries::pick_rows, typed_values::specs::Stored::function_of))]
    fn accept(&mut self, alloc: Global, item: &Record<'_>) -> Result<(), DecodeFault> {
        if item.is(1, 0) {
            self.member = Some(Sender::Split(item.short()?));
        } else if item.is(2, 2) {
            let held = match self.member.take() {
                Some(Sender::Function(address)) => Some(address),
                Some(Sender::Split(_split)) => None,
                None => None,
            };
            self.member = Some(Sender::Function(item.message(alloc, held)?));
        }
        Ok(())
    }
}

impl Parts for PickRead {
    type Whole = Sender;

    ghost whole = { pick_of };

    fn whole(self, _alloc: Global) -> Mem<Option<Sender>> {
        Ok(self.member)
    }
}

/// A reply while it is read.
#[derive(Drop)]
pub struct ReplyRead {
    pub call: Option<CallRead>,
    pub address: Option<Address>,
    pub moment: u64,
    pub picks: List<PickRead>,
    pub answer: Bytes,
}

impl Decode for ReplyRead {
    ghost rows = { reply_rows };

    ghost empty = { empty_reply };

    #[tactic(auto, unfolding(crate::specs::Entries::empty_reply))]
    fn blank(alloc: Global) -> ReplyRead {
        ReplyRead {
            call: None,
            address: None,
            moment: 0,
            picks: List::new(alloc),
            answer: Bytes::new(alloc),
        }
    }

    #[tactic(auto, unfolding(crate::specs::Entries::reply_rows))]
    fn accept(&mut self, alloc: Global, item: &Record<'_>) -> Result<(), DecodeFault> {
        if item.is(1, 2) {
            item.enter(alloc, &mut self.call)?;
        } else if item.is(2, 2) {
            item.enter(alloc, &mut self.address)?;
        } else if item.is(3, 0) {
            self.moment = item.number;
        } else if item.is(4, 2) {
            item.append_to(alloc, &mut self.picks)?;
        } else if item.is(5, 2) {
            self.answer = item.bytes(alloc)?;
        }
        Ok(())
    }
}

impl Parts for ReplyRead {
    type Whole = Reply;

    ghost whole = { reply_of };

    #[tactic(auto, unfolding(crate::specs::Entries::reply_of))]
    fn whole(self, alloc: Global) -> Mem<Option<Reply>> {
        let ReplyRead {
            call,
            address,
            moment,
            picks,
            answer,
        } = self;
        let Some(picks) = all_whole(alloc, picks)? else {
            return Ok(None);
        };
        Ok(reply_with(call, address, moment, picks, answer))
    }
}

/// A reply of its parts, where its call and address are there.
fn reply_with(
    call: Option<CallRead>,
    address: Option<Address>,
    moment: u64,
    picks: List<Sender>,
    answer: Bytes,
) -> Option<Reply>
    ensures { result ≡ reply_with call address moment picks answer }
{
    Some(Reply {
        call: call_of(call?),
        address: address?,
        moment,
        picks,
        answer,
    })
}

/// Adds the senders of a reply.
#[tactic(auto, using(crate::proofs::Lists::list_steps))]
fn with_picks(into: Bytes, picks: &List<Sender>) -> Mem<Bytes>
    ensures spelled { IfOk result (λ bytes. bytes ≡ into ++ spelled_messages (spelling pick_rows) 4 (map pick_read picks.now)) }
    ensures fits { OnOk result (fit_messages (fit pick_rows) (map pick_read picks.now) ≡ true) }
{
    with_messages(into, 4, picks.as_slice())
}

/// A reply that is written.
#[derive(Drop)]
pub struct ReplyWritten<'a> {
    pub reply: &'a Reply,
}

impl Encode for ReplyWritten<'_> {
    ghost spells = { λ it. reply_spelling it.reply.now };

    ghost fits = { λ it. fit reply_rows (reply_read it.reply.now) };

    #[tactic(auto, using(crate::proofs::Lists::list_steps), unfolding(crate::specs::Spelling::reply_spelling, crate::specs::Entries::reply_rows, proto_wire::specs::Message::spelled_message))]
    fn size(&self) -> u64 {
        member_size(1, &call_read(&self.reply.call))
            .saturating_add(member_size(2, &self.reply.address))
            .saturating_add(number_size(3, self.reply.moment))
            .saturating_add(messages_size(4, self.reply.picks.as_slice()))
            .saturating_add(bytes_size(5, self.reply.answer.as_slice()))
    }

    #[tactic(auto, unfolding(crate::specs::Spelling::reply_spelling, crate::specs::Entries::reply_rows, proto_wire::specs::Message::spelled_message, proto_wire::specs::Message::fit_message))]
    fn put(&self, into: Bytes) -> Mem<Bytes> {
        let into = with_member(into, 1, &call_read(&self.reply.call))?;
        let into = with_member(into, 2, &self.reply.address)?;
        let into = with_number(into, 3, self.reply.moment)?;
        let into = with_picks(into, &self.reply.picks)?;
        with_bytes(into, 5, self.reply.answer.as_slice())
    }
}

/// The canonical spelling of a reply. Decoding it gives the reply again.
pub fn encode_reply(alloc: Global, reply: &Reply) -> Mem<Bytes>
    ensures spelled { IfOk result (λ b. b ≡ reply_spelling reply.now) }
    ensures again { IfOk result (λ b. reply_value b ≡ Ok reply.now) }
{
    let bytes = encoded(alloc, &ReplyWritten { reply })?;
    Ok(bytes)
}

/// The reply that the bytes spell. It needs its call, its address, and the member of each sender.
#[tactic(auto, unfolding(crate::specs::Spelling::reply_value))]
pub fn decode_reply(alloc: Global, bytes: &[u8]) -> Result<Reply, DecodeFault>
    ensures { Gives (λ reply. reply) result (reply_value bytes.now) }
{
    decoded_whole::<ReplyRead>(alloc, bytes)
}
