// Events at the dock.
use crate::Event;
use crate::far_end::FarEnd;
use crate::highest::lowered;
use crate::link::{ANSWER, Answer};
use crate::objects::Objects;
use dock::{Policy, Standing};
use messages::{MODES, Request, SVIDS};
use pages::{PER_PAGE, first_svids};

impl FarEnd {
    pub fn take(&mut self, event: Event) {
        match event {
            Event::Give => self.answer(true),
            Event::Busy => self.answer(false),
            Event::RequestLost | Event::AnswerLost => self.link.take(event),
            _ => self.hear(event),
        }
    }

    // A request reaches the dock, or the dock hears of its answer.
    fn hear(&mut self, event: Event) {
        let is_lost = self.link.loses_confirmation(event);
        self.count_lost(is_lost);
        let stepped = match event {
            Event::Sent => confirming::sent(self.dock),
            Event::Failed => confirming::failed(self.dock),
            _ => {
                let sent = self.link.request.unwrap_or_default();
                let heard = lowered(sent, self.highest).unwrap_or(sent);
                receiving::message(self.dock, &heard, &mut [])
            }
        };
        self.link.take(event);
        self.step(stepped);
    }

    // Policy gives what the request asks for, or is busy.
    // No Policy is passed: what is to be given may lack, and then policy is busy too.
    fn answer(&mut self, is_given: bool) {
        let Standing::Asking(request) = self.dock.standing else {
            return self.permit(false);
        };
        let given = if is_given { self.given(request) } else { None };
        match given {
            Some(objects) => self.send(Policy::Give, request, objects),
            None => self.send(Policy::Busy, request, Objects::none()),
        }
    }

    // Of an SVID that the dock does not have, policy cannot give the modes.
    fn given(&self, request: Request) -> Option<Objects> {
        if request.command == MODES {
            self.modes_of(request.svid)
        } else {
            Some(Objects::none())
        }
    }

    fn modes_of(&self, svid: u16) -> Option<Objects> {
        let svids = first_svids(&self.dock.svids, usize::from(self.dock.count));
        let place = svids.iter().position(|other| *other == svid)?;
        self.modes.get(place).copied()
    }

    fn send(&mut self, policy: Policy, request: Request, objects: Objects) {
        let mut bytes = [0; ANSWER];
        let stepped = answering::policy_answer(
            self.dock,
            policy,
            request,
            objects.words(),
            &mut bytes,
        );
        if let Ok(accepted) = stepped {
            let is_before_last = self.is_page_before_last(policy, request);
            self.link.answer = Some(Answer::new(bytes, accepted.length, is_before_last));
        }
        self.step(stepped);
    }

    // A given page that does not end the list.
    fn is_page_before_last(&self, policy: Policy, request: Request) -> bool {
        request.command == SVIDS
            && matches!(policy, Policy::Give)
            && usize::from(self.dock.page) < usize::from(self.dock.count) / PER_PAGE
    }
}
