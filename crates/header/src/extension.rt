// Setting and deleting an extension element.
ghost use Rattle.std.specs.Prelude.{◌≡◌, true, [], ◌∷◌, length};
ghost use Rattle.error.specs.Refusal.{refusal_of};
ghost use Rattle.error.specs.Said.{Said, refused, said};
ghost use Rattle.elements.specs.Elements.{elements_of};
ghost use Rattle.elements.specs.Runs.{Holds, element, replaced_at};
ghost use Rattle.header.specs.declared.Header.{Header};
ghost use Rattle.header.specs.Fields.{in_domain};
ghost use Rattle.header.specs.Extension.{extended, change, id_refusal, set_later, set_first, set_extension, del_extension};
ghost use Rattle.header.specs.Said.{heard_change, change_heard, unless};

use crate::{Changed, Header};
use block::{Form, first_head, first_profile, grow, resize};
use elements::{Extensions, Run, end, find, replaced, total, without};
use error::Error;
use header_write::in_limits;

// Whether a later set takes the id and the length.
fn allowed(form: Form, id: u8, len: usize) -> Result<(), Error>
    ensures { (next : Said Header) → id_refusal form id len next ≡ unless (said result) next }
{
    match form {
        Form::OneByte if id < 1 || 14 < id => Err(Error::ErrRfc8285oneByteHeaderIdrange),
        Form::OneByte if 16 < len => Err(Error::ErrRfc8285oneByteHeaderSize),
        Form::TwoByte if id < 1 => Err(Error::ErrRfc8285twoByteHeaderIdrange),
        Form::TwoByte if 255 < len => Err(Error::ErrRfc8285twoByteHeaderSize),
        Form::Other if id != 0 => Err(Error::ErrRfc3550headerIdrange),
        _ => Ok(()),
    }
}

impl Header {
    // With other extensions: every other field stays.
    fn extended(mut self, profile: u16, extensions: Extensions, padding: usize) -> Self
        ensures { result ≡ extended self profile extensions padding }
    {
        self.extension = true;
        self.extension_profile = profile;
        self.extensions = extensions;
        self.extensions_padding = padding;
        self
    }

    fn refused(self, error: Error) -> Changed
        ensures { heard_change result ≡ change_heard self (refused (refusal_of error)) }
    {
        Changed {
            change: Err(error),
            header: self,
        }
    }

    // One element of `id` in the place of the run: 7 where that "would pass 32 elements or 1,024 data bytes".
    fn put(self, run: Run, profile: u16, padding: usize, id: u8, payload: &[u8]) -> Changed
        requires { Holds self.extensions run }
        ensures { heard_change result ≡ change_heard self (change self profile (replaced_at run (element id payload.now ∷ []) (elements_of self.extensions)) padding) }
    {
        if 32 <= self.extensions.count - run.count {
            return self.refused(Error::OverLimits);
        }
        let others = total(self.extensions.count, &self.extensions.lens) - run.len;
        if 1024 - others < payload.len() {
            return self.refused(Error::OverLimits);
        }
        Changed {
            change: Ok(()),
            header: self.extended(
                profile,
                replaced(&self.extensions, run, id, payload),
                padding,
            ),
        }
    }

    // "Later sets replace the first element of that id or append."
    fn set_later(self, id: u8, payload: &[u8]) -> Changed
        requires { in_domain self ≡ true }
        ensures { heard_change result ≡ change_heard self (set_later self (elements_of self.extensions) id payload.now) }
    {
        let profile = self.extension_profile;
        let form = Form::from(profile);
        if let Err(error) = allowed(form, id, payload.len()) {
            return self.refused(error);
        }
        let found = find(
            id,
            self.extensions.count,
            &self.extensions.ids,
            &self.extensions.lens,
        );
        match found {
            Some(run) => {
                let padding = resize(self.extensions_padding, run.len, payload.len());
                self.put(run, profile, padding, id, payload)
            }
            None => {
                let size = payload.len() + form.per_element();
                let padding = grow(self.extensions_padding, size);
                self.put(end(&self.extensions), profile, padding, id, payload)
            }
        }
    }

    // A first set appends; "it does not check the id."
    fn set_first(self, id: u8, payload: &[u8]) -> Changed
        requires { in_domain self ≡ true }
        ensures { heard_change result ≡ change_heard self (set_first self (elements_of self.extensions) id payload.now) }
    {
        let len = payload.len();
        let profile = first_profile(self.extension_profile, len);
        let padding = grow(self.extensions_padding, len + first_head(len));
        self.put(end(&self.extensions), profile, padding, id, payload)
    }

    pub fn set_extension(self, id: u8, payload: &[u8]) -> Changed
        ensures { heard_change result ≡ change_heard self (set_extension self id payload.now) }
    {
        if !in_limits(
            self.csrc_count,
            self.extensions.count,
            &self.extensions.lens,
            self.extensions_padding,
        ) {
            return self.refused(Error::OutsideDomain);
        }
        if self.extension {
            return self.set_later(id, payload);
        }
        self.set_first(id, payload)
    }

    // Stays: the test of `set_extension`: a method for it would lend the whole record for four numbers and an array.
    pub fn del_extension(self, id: u8) -> Changed
        ensures { heard_change result ≡ change_heard self (del_extension self id) }
    {
        if !in_limits(
            self.csrc_count,
            self.extensions.count,
            &self.extensions.lens,
            self.extensions_padding,
        ) {
            return self.refused(Error::OutsideDomain);
        }
        if !self.extension {
            return self.refused(Error::ErrHeaderExtensionsNotEnabled);
        }
        let found = find(
            id,
            self.extensions.count,
            &self.extensions.ids,
            &self.extensions.lens,
        );
        let Some(run) = found else {
            return self.refused(Error::ErrHeaderExtensionNotFound);
        };
        let profile = self.extension_profile;
        let gone = (run.len + Form::from(profile).per_element()) % 4;
        let padding = (self.extensions_padding + gone) % 4;
        Changed {
            change: Ok(()),
            header: self.extended(profile, without(&self.extensions, run), padding),
        }
    }
}
