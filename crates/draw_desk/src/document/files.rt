//! Files, the station after the page, and how the page begins.

/// Opens, saves, runs, and begins.
macro_rules! files {
    ([$($before:literal)*] $next:ident $($later:ident)*) => {
        $next!([$($before)* r##"// ---- questions

// A question with some answers; the first one is what Escape means.
function question(head, text, ways) {
  const box = by("d-ask"), form = by("d-ask-ways");
  by("d-ask-head").textContent = head;
  by("d-ask-text").textContent = text;
  form.replaceChildren(...ways.map(([value, label]) => html("button", {value, textContent: label})));
  box.returnValue = ways[0][0];
  box.showModal();
  return new Promise(answered => { box.onclose = () => answered(box.returnValue); });
}

// ---- files

function replace(one, more) {
  change(all => { for (const key of Object.keys(all)) delete all[key]; Object.assign(all, one); });
  told = more;
  chosen = chain = null;
  refresh();
  fit();
}

// What is wrong, or nothing.
function load(text) {
  try {
    const one = opened(text);
    replace(one.drawing, one.told);
    setTool("choose");
    show();
    return "";
  } catch (fault) {
    say("it can't be opened: " + fault.message);
    return fault.message;
  }
}

async function openFile(file) {
  if (file) load(await file.text());
}

function download() {
  const link = html("a", {href: URL.createObjectURL(new Blob([read.text], {type: "text/plain"})), download: drawing.station.name.toLowerCase() + ".toml"});
  link.click();
  URL.revokeObjectURL(link.href);
}

// What the page knows of a file that it couldn't open, and what it says where a file is to be written over, whatever stands there.
const UNREAD = "unread", ANYTHING = "anything";

// By the station the file is written; a page of a file gives a file to keep. What the file was when it was read is told along, so
// that it isn't written over what changed meanwhile.
async function save() {
  if (!station) return download();
  try {
    const said = await ask("/save", read.text, {"X-Known": station.known});
    if (said.status === 409) return saveOver();
    took(said.ok, await said.text());
  } catch {
    say("it isn't saved: the station doesn't answer");
  }
}

async function saveOver() {
  const isUnread = station.known === UNREAD, ways = [["no", "Leave it"], ["over", "Write over it"], ...isUnread ? [] : [["open", "Open what is there"]]];
  const [head, why] = isUnread ? ["isn't what is drawn here", "What stands there couldn't be opened."] : ["changed meanwhile", "Something else wrote it after this page read it."];
  const way = await question(station.file + " " + head, why, ways);
  if (way === "open") return askLayout(true);
  if (way !== "over") return;
  const said = await ask("/save", read.text, {"X-Known": ANYTHING});
  took(said.ok, await said.text());
}

function took(isOk, text) {
  if (isOk) { station.known = text.trim(); station.text = read.text; }
  say(isOk ? "saved to " + station.file : "it isn't saved: " + text);
}

const isUnsaved = () => station && station.text !== read.text && read.kinds.size > 0;

async function copy() {
  try {
    await navigator.clipboard.writeText(read.text);
    say("copied");
  } catch {
    by("d-toml").select();
    document.execCommand("copy");
  }
}

async function begin() {
  const isSure = read.kinds.size === 0 || await question("Begin anew?", "What is drawn can be had back by undo.", [["no", "No"], ["yes", "Yes"]]) === "yes";
  if (isSure) replace(newDrawing(), []);
}

// ---- a panel of what was checked last

let isRunning = false;

async function run() {
  try {
    await runOrStop();
  } catch {
    say("it can't be run: the station doesn't answer");
  }
}

async function runOrStop() {
  if (!station) return say("this page alone judges what is drawn: it can be run where station draw FILE serves the page");
  if (station.isGone) return say("it can't be run: " + station.isGone);
  if (isRunning) return stop();
  if (read.faults.length) return say("it can't be run: " + read.faults[0].text);
  const said = verdict();
  if (!said) return say("it can't be run yet: the station hasn't checked this text");
  if (said.status !== 0) return say("it can't be run: " + said.err.split("\n")[0]);
  if (!table.kept.length) return say("there is no route to run");
  const answered = await ask("/run", "start"), text = await answered.text();
  if (!answered.ok) return say("it doesn't run: " + text);
  showRunning(true);
  say("it runs at " + text.trim());
  window.open(text.trim(), "panel");
}

async function stop() {
  const answered = await ask("/run", "stop");
  showRunning(!answered.ok);
  say(answered.ok ? "it doesn't run any more" : "it can't be stopped: " + await answered.text());
}

function showRunning(is) {
  isRunning = is;
  by("d-run").textContent = is ? "Stop it" : "Run it";
}

// ---- the beginning

// What the station serves: the text of the file, what it was known by, and who it is.
async function askLayout(isAgain) {
  const answered = await fetch("/layout", {cache: "no-store", signal: AbortSignal.timeout(5000)});
  if (!answered.ok) return say("the station can't show it: " + await answered.text());
  station = await answered.json();
  by("d-file-name").title = station.file;
  showRunning(station.running);
  const fault = station.text ? load(station.text) : "";
  if (fault) {
    say(station.file + " can't be opened: " + fault);
    station.known = UNREAD;
  } else station.text = read.text;
  if (!isAgain) past.length = future.length = 0;
}

function fromStore() {
  try { const kept = localStorage.getItem("drawing"); if (kept) drawing = {...newDrawing(), ...JSON.parse(kept)}; } catch { /* then it begins empty */ }
}

function listenToPlan() {
  const plan = by("d-svg");
  // the second of two presses comes as a mouse event with its number: what the first one hit was painted anew since
  plan.addEventListener("mousedown", event => { event.preventDefault(); if (event.detail === 2 && event.button === 0) onDouble(event); });
  plan.addEventListener("pointerdown", onDown);
  plan.addEventListener("pointermove", onMove);
  plan.addEventListener("pointerup", onUp);
  plan.addEventListener("pointerleave", () => { if (!stroke && !pan) { hover = null; } });
  plan.addEventListener("wheel", onWheel, {passive: false});
  document.addEventListener("keydown", onKey);
  document.addEventListener("keyup", key => { if (key.key === " ") isSpace = false; });
  window.addEventListener("beforeunload", event => { if (isUnsaved()) event.preventDefault(); });
  document.addEventListener("dragover", event => event.preventDefault());
  document.addEventListener("drop", event => { event.preventDefault(); openFile(event.dataTransfer.files[0]); });
}

function listenToButtons() {
  const does = {
    undo: () => undo(past, future), redo: () => undo(future, past), room: makeRoom, fit, new: begin, open: () => by("d-file").click(), save, run, copy,
    help: () => by("d-keys").showModal(),
  };
  for (const [name, what] of Object.entries(does)) by("d-" + name).onclick = what;
  by("d-file").onchange = () => { openFile(by("d-file").files[0]); by("d-file").value = ""; };
  by("d-station").onchange = () => change(all => { all.station.name = by("d-station").value.trim(); });
}

async function start() {
  for (const [name, [label, key]] of Object.entries(TOOLS)) {
    by("d-tools").append(html("button", {id: "d-tool-" + name, title: HINTS[name], onclick: () => setTool(name)}, label + " ", html("kbd", {textContent: key})));
  }
  listenToPlan();
  listenToButtons();
  const isServed = location.protocol.startsWith("http");
  if (!isServed) fromStore();
  refresh();
  fit();
  if (isServed) { try { await askLayout(false); } catch { say("the station doesn't answer"); } }
  refresh();
  paint();
}

start();
</script>
</body>
</html>
"##] $($later)*)
    };
}

pub(crate) use files;
