//! Layouts as text.

/// Reads TOML 1.1 as far as layouts go, and writes layouts.
macro_rules! toml_text {
    ([$($before:literal)*] $next:ident $($later:ident)*) => {
        $next!([$($before)* r##"// ---- TOML 1.1: what is read

const ESCAPES = {b: "\b", t: "\t", n: "\n", f: "\f", r: "\r", e: "\x1b", '"': '"', "\\": "\\"};

function unescaped(raw) {
  return raw.replace(/\\(?:u([0-9A-Fa-f]{4})|U([0-9A-Fa-f]{8})|x([0-9A-Fa-f]{2})|[ \t]*\r?\n\s*|(.))/g,
    (all, four, eight, two, one) => four || eight || two ? String.fromCodePoint(parseInt(four || eight || two, 16)) : one ? ESCAPES[one] : "");
}

class Toml {
  constructor(text) {
    this.text = text;
    this.at = 0;
  }

  // What a sticky pattern finds here, which is passed over.
  next(pattern) {
    pattern.lastIndex = this.at;
    const found = pattern.exec(this.text);
    if (found) this.at = pattern.lastIndex;
    return found;
  }

  need(pattern) {
    const found = this.next(pattern);
    if (!found) throw new Error("line " + this.text.slice(0, this.at).split("\n").length + " is no TOML");
    return found;
  }

  lines() {
    this.next(/(?:\s|#[^\n]*)*/y);
  }

  string() {
    const raw = this.next(/'''(?:\r?\n)?([^]*?'{0,2})'''(?!')/y) || this.next(/'(?!'')([^'\n]*)'/y);
    if (raw) return raw[1];
    const found = this.next(/"""(?:\r?\n)?((?:\\[^]|[^\\])*?"{0,2})"""(?!")/y) || this.next(/"(?!"")((?:\\.|[^"\\\n])*)"/y);
    return found && unescaped(found[1]);
  }

  key() {
    const parts = [];
    do {
      this.next(/[ \t]*/y);
      parts.push(this.string() ?? this.need(/[A-Za-z0-9_-]+/y)[0]);
    } while (this.next(/[ \t]*\./y));
    return parts;
  }

  value() {
    const text = this.string();
    if (text !== null) return text;
    if (this.next(/\[/y)) return this.items(/\]/y, [], all => all.push(this.value()));
    if (this.next(/\{/y)) return this.items(/\}/y, Object.create(null), all => this.entry(all));
    const word = (this.next(/\d{4}-\d\d-\d\d(?:[Tt ]\d\d:[^\s,\]}#]*)?/y) || this.need(/[^\s,\]}#]+/y))[0];
    return word === "true" || (word === "false" ? false : Number.isNaN(+word.replaceAll("_", "")) ? word : +word.replaceAll("_", ""));
  }

  items(end, all, take) {
    for (this.lines(); !this.next(end); this.lines()) {
      take(all);
      this.lines();
      if (!this.next(/,/y)) {
        this.need(end);
        break;
      }
    }
    return all;
  }

  entry(table) {
    const path = this.key();
    this.need(/[ \t]*=[ \t]*/y);
    inner(table, path.slice(0, -1))[path.at(-1)] = this.value();
  }

  read() {
    const top = Object.create(null);
    let table = top;
    for (this.lines(); this.at < this.text.length; this.lines()) {
      const head = this.next(/\[\[?/y);
      if (!head) {
        this.entry(table);
        continue;
      }
      const path = this.key();
      this.need(/[ \t]*\]\]?/y);
      if (head[0] === "[[") (inner(top, path.slice(0, -1))[path.at(-1)] ??= []).push(Object.create(null));
      table = inner(top, path);
    }
    return top;
  }
}

function inner(table, path) {
  for (const part of path) {
    const next = table[part] ??= Object.create(null);
    table = Array.isArray(next) ? next.at(-1) : next;
  }
  return table;
}

// ---- what is written

const isName = text => /^[A-Za-z0-9-]{1,20}$/.test(text);
const quoted = text => JSON.stringify(text);
const listed = list => "[" + list.map(quoted).join(", ") + "]";
const tabled = sides => Object.keys(sides).length ? "{ " + Object.entries(sides).map(([name, side]) => name + " = " + quoted(side)).join(", ") + " }" : "{}";
const block = (key, lines) => lines.length ? key + " = [\n" + lines.map(line => "  " + line + ",\n").join("") + "]\n" : key + " = []\n";

function writeLayout(l, routes, lines) {
  const slow = one => one.slow ? ", slow = " + quoted(one.slow) : "";
  const text = "section = " + listed(l.section) + "\nborder = " + listed(l.border) + "\n"
    + block("joint", l.joint.map(listed))
    + block("track", l.track.map(one => `{ name = ${quoted(one.name)}, section = ${quoted(one.section)} }`))
    + block("point", l.point.map(one => `{ name = ${quoted(one.name)}, id = ${one.id}, section = ${quoted(one.section)}${slow(one)} }`))
    + block("signal", l.signal.map(one => `{ name = ${quoted(one.name)}, id = ${one.id}, at = ${quoted(one.at)} }`))
    + block("detector", l.detector.map(one => `{ name = ${quoted(one.name)}, id = ${one.id}, sections = ${listed(one.sections)} }`));
  return text + writeRoutes(routes) + writeStation(l.station) + (lines ? writePositions(lines) : "");
}

function writeRoutes(routes) {
  if (routes.length === 0) return "route = []\n";
  return routes.map(one => `\n[[route]]\nname = ${quoted(one.name)}\nentry = ${quoted(one.entry)}\nexit = ${quoted(one.exit)}\npath = ${listed(one.path)}\npoints = ${tabled(one.points)}\n`
    + (Object.keys(one.flank || {}).length ? `flank = ${tabled(one.flank)}\n` : "")
    + ((one.approach || []).length ? `approach = ${listed(one.approach)}\n` : "")
    + ((one.extra || []).length ? `extra = ${listed(one.extra)}\n` : "")
    + (one.aspect === "slow" ? `aspect = "slow"\n` : "")).join("");
}

const writeStation = one => `\n[station]\nname = ${quoted(one.name)}\nid = ${one.id}\n` + (one.key ? `key = ${quoted(one.key)}\n` : "");

function writePositions(lines) {
  const key = name => name.includes(".") ? quoted(name) : name;
  return "\n# Where it is drawn, on a grid: the ends and bends of each track, and of the rails of each point. Plans go by it.\n[drawing]\n"
    + Object.entries(lines).map(([name, line]) => key(name) + " = [" + line.join(", ") + "]\n").join("");
}

"##] $($later)*)
    };
}

pub(crate) use toml_text;
