//! Attributes and places as words.
use crate::line::Line;
use ir_module::{FuncAttrs, FuncPlaces, ParamAttrs};

pub fn func(line: &mut Line, attrs: &FuncAttrs) {
    line.put(" func");
    line.flag(attrs.nounwind, "nounwind");
    line.flag(attrs.noreturn, "noreturn");
    line.flag(attrs.nofree, "nofree");
    line.flag(attrs.norecurse, "norecurse");
    line.flag(attrs.nocallback, "nocallback");
    if let Some(memory) = attrs.memory {
        line.named("memory", memory.other as u64);
        line.put(",");
        line.number(memory.argmem as u64);
        line.put(",");
        line.number(memory.inaccessible as u64);
    }
    line.put(";");
}

pub fn param(line: &mut Line, name: &str, attrs: &ParamAttrs) {
    line.put(" ");
    line.put(name);
    line.flag(attrs.nonnull, "nonnull");
    line.flag(attrs.nocapture, "nocapture");
    line.flag(attrs.captures, "captures");
    line.flag(attrs.readnone, "readnone");
    line.flag(attrs.readonly, "readonly");
    line.flag(attrs.writeonly, "writeonly");
    line.flag(attrs.returned, "returned");
    line.flag(attrs.sret, "sret");
    line.flag(attrs.writable, "writable");
    if attrs.align > 0 {
        line.named("align", attrs.align);
    }
    if attrs.dereferenceable > 0 {
        line.named("dereferenceable", attrs.dereferenceable);
    }
    line.flag(attrs.bad, "bad");
    line.put(";");
}

pub fn places(line: &mut Line, places: FuncPlaces) {
    line.named("at", places.ret as u64);
    line.named("and", places.after as u64);
}
